//! What is to be simulated, as lines of text.

ghost use Rattle.std.specs.Prelude.{◌≡◌, ◌≢◌, ◌++◌, ℕ, List, IfNone, IfSome};
ghost use Rattle.stream_chart.specs.Planned.{plan_of_no_line, quantity_text, with_quantity, SaysNumber, SaysQuantity, SaysNothing, TakesLine};

/// How much is sent, and over which network. One payload in so many is lost or late, none where that is 0.
#[derive(Clone, Copy, Debug)]
pub struct Plan {
    pub seed: u64,
    pub bytes: u64,
    pub payload: u64,
    pub receive_window: u64,
    pub stream_window: u64,
    pub send_window: u64,
    pub loss: u64,
    pub reorder: u64,
    pub is_picture: bool,
}

// What a line has a number for.
#[derive(Clone, Copy)]
enum Quantity {
    Seed,
    Bytes,
    Payload,
    ReceiveWindow,
    StreamWindow,
    SendWindow,
    Loss,
    Reorder,
}

// What a line begins by naming, and the text behind that.
fn read_quantity(line: &str) -> Option<(Quantity, &str)>
    ensures named { IfSome result (λ read. line.now ≡ quantity_text read.0 ++ read.1.now) }
    ensures none { IfNone result ((quantity : Quantity) (text : List ℕ) → line.now ≢ quantity_text quantity ++ text) }
{
    if let Some(text) = line.strip_prefix("seed ") {
        Some((Quantity::Seed, text))
    } else if let Some(text) = line.strip_prefix("bytes ") {
        Some((Quantity::Bytes, text))
    } else if let Some(text) = line.strip_prefix("payload ") {
        Some((Quantity::Payload, text))
    } else if let Some(text) = line.strip_prefix("receive-window ") {
        Some((Quantity::ReceiveWindow, text))
    } else if let Some(text) = line.strip_prefix("stream-window ") {
        Some((Quantity::StreamWindow, text))
    } else if let Some(text) = line.strip_prefix("send-window ") {
        Some((Quantity::SendWindow, text))
    } else if let Some(text) = line.strip_prefix("loss 1 in ") {
        Some((Quantity::Loss, text))
    } else if let Some(text) = line.strip_prefix("reorder 1 in ") {
        Some((Quantity::Reorder, text))
    } else {
        None
    }
}

// A decimal number below 2^62.
fn read_number(text: &str) -> Option<u64>
    ensures spelled { IfSome result (λ number. SaysNumber text.now number) }
    ensures none { IfNone result ((number : ℕ) → SaysNumber text.now number → ⊥) }
{
    let Ok(number) = text.parse::<u64>() else {
        return None;
    };
    if number >= 1 << 62 {
        return None;
    }
    Some(number)
}

// The quantity and the number that a line says.
fn read_line(line: &str) -> Option<(Quantity, u64)>
    ensures said { IfSome result (λ read. SaysQuantity line.now read.0 read.1) }
    ensures none { IfNone result ((quantity : Quantity) (number : ℕ) → SaysQuantity line.now quantity number → ⊥) }
{
    let (quantity, text) = read_quantity(line)?;
    let number = read_number(text)?;
    Some((quantity, number))
}

impl Default for Plan {
    /// What holds where no line says otherwise: 100,000 bytes in payloads of 1200, of which none is lost or late, with
    /// windows of 65,536 bytes.
    fn default() -> Self
        ensures { result ≡ plan_of_no_line }
    {
        Plan {
            seed: 0,
            bytes: 100_000,
            payload: 1200,
            receive_window: 65_536,
            stream_window: 65_536,
            send_window: 65_536,
            loss: 0,
            reorder: 0,
            is_picture: false,
        }
    }
}

impl Plan {
    /// Takes a line: `picture`, or a name and a number below 2^62, which replaces what an earlier line said. `None`: it has
    /// another form, and nothing changes.
    pub fn take(&mut self, line: &str) -> Option<()>
        ensures takes { IfSome result (λ _. TakesLine line.now self.old self.new) }
        ensures none { IfNone result (SaysNothing line.now) }
        ensures unchanged { IfNone result (self.new ≡ self.old) }
    {
        if line == "picture" {
            self.is_picture = true;
            return Some(());
        }
        let (quantity, number) = read_line(line)?;
        self.set(quantity, number);
        Some(())
    }

    fn set(&mut self, quantity: Quantity, number: u64)
        ensures { self.new ≡ with_quantity self.old quantity number }
    {
        match quantity {
            Quantity::Seed => self.seed = number,
            Quantity::Bytes => self.bytes = number,
            Quantity::Payload => self.payload = number,
            Quantity::ReceiveWindow => self.receive_window = number,
            Quantity::StreamWindow => self.stream_window = number,
            Quantity::SendWindow => self.send_window = number,
            Quantity::Loss => self.loss = number,
            Quantity::Reorder => self.reorder = number,
        }
    }
}
