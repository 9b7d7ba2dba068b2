//! Rows as a table, and as a picture.

use crate::plan::Plan;
use crate::samples::{Row, Samples};
use std::io;
use std::io::Write;

// What was counted, and how its line is drawn: in a color that the color-blind tell apart (those of Okabe and Ito), and
// in dashes of its own.
#[derive(Clone, Copy)]
struct Column {
    name: &'static str,
    color: &'static str,
    dashes: &'static str,
    count: u64,
}

fn drawn(name: &'static str, color: &'static str, dashes: &'static str, count: u64) -> Column {
    Column {
        name,
        color,
        dashes,
        count,
    }
}

impl Row {
    fn columns(&self) -> [Column; 6] {
        [
            drawn("credit", "#d55e00", "12 4", self.credit),
            drawn("written", "#cc79a7", "3 3", self.written),
            drawn("sent", "#0072b2", "8 3 2 3", self.sent),
            drawn("acknowledged", "#000000", "1 3", self.acknowledged),
            drawn("given", "#009e73", "none", self.given),
            drawn("sent again", "#e69f00", "6 3", self.sent_again()),
        ]
    }
}

impl Samples {
    /// Writes the rows of a run, as a table or as a picture as its plan says, and how it ended, in some words.
    pub fn write<W: Write>(&self, plan: &Plan, words: &str, output: &mut W) -> io::Result<()> {
        if plan.is_picture {
            write_picture(self.rows(), plan, words, output)
        } else {
            write_table(self.rows(), words, output)
        }
    }
}

// Writes rows as a table.
fn write_table<W: Write>(rows: &[Row], words: &str, output: &mut W) -> io::Result<()> {
    write!(output, "{:>9}", "step")?;
    for column in Row::default().columns() {
        write!(output, " {:>12}", column.name)?;
    }
    for row in rows {
        write!(output, "\n{:>9}", row.step)?;
        for column in row.columns() {
            write!(output, " {:>12}", column.count)?;
        }
    }
    let given = rows.last().map_or(0, |row| row.given);
    writeln!(output, "\ngiven {given} bytes, {words}")
}

// A fourth of an axis that reaches to a number, so that few digits stand at its ends.
fn fourth(greatest: u64) -> u64 {
    let least = greatest.div_ceil(4).max(1);
    let unit = 10u64.saturating_pow(least.ilog10().saturating_sub(1));
    for digits in [10u64, 12, 15, 20, 25, 30, 40, 50, 60, 80, 100] {
        if least >= 10 && digits.saturating_mul(unit) >= least {
            return digits.saturating_mul(unit);
        }
    }
    least
}

// In what the numbers at an axis are told whose fourth this is.
fn unit(fourth: u64) -> (u64, &'static str) {
    if fourth.is_multiple_of(1_000_000) {
        (1_000_000, "millions of ")
    } else if fourth.is_multiple_of(1000) {
        (1000, "thousands of ")
    } else {
        (1, "")
    }
}

// How far along an axis a number lies, in pixels, where a fourth of the axis has so many.
fn along(number: u64, fourth: u64, pixels: u64) -> u64 {
    let far = number.saturating_mul(pixels).checked_div(fourth);
    far.unwrap_or(0).min(pixels.saturating_mul(4))
}

// The axes meet 90 pixels from the left and 520 from the top, and are 700 and 420 long. This says what their fourths
// count.
#[derive(Clone, Copy)]
struct Scale {
    steps: u64,
    bytes: u64,
}

impl Scale {
    fn across(self, row: &Row) -> u64 {
        along(row.step, self.steps, 175).saturating_add(90)
    }

    fn down(self, count: u64) -> u64 {
        520u64.saturating_sub(along(count, self.bytes, 105))
    }
}

// Lines across, with numbers at their ends.
fn draw_axes<W: Write>(scale: Scale, output: &mut W) -> io::Result<()> {
    let ((in_steps, of_steps), (in_bytes, of_bytes)) = (unit(scale.steps), unit(scale.bytes));
    writeln!(
        output,
        "<text x='440' y='570' text-anchor='middle'>{of_steps}steps</text>"
    )?;
    writeln!(
        output,
        "<text transform='translate(25 310) rotate(-90)' text-anchor='middle'>{of_bytes}bytes</text>"
    )?;
    for index in 0..5u64 {
        let (x, y) = (90 + 175 * index, 520 - 105 * index);
        let step = scale.steps.saturating_mul(index).checked_div(in_steps);
        let count = scale.bytes.saturating_mul(index).checked_div(in_bytes);
        let (step, count) = (step.unwrap_or(0), count.unwrap_or(0));
        writeln!(
            output,
            "<path d='M90 {y}h700M{x} 100v420' stroke='#ddd' stroke-width='1'/>"
        )?;
        writeln!(
            output,
            "<text x='{x}' y='543' text-anchor='middle'>{step}</text>"
        )?;
        writeln!(
            output,
            "<text x='80' y='{y}' dy='5' text-anchor='end'>{count}</text>"
        )?;
    }
    Ok(())
}

// Draws what was counted in one column: a count stays until the next row.
fn draw_line<W: Write>(rows: &[Row], index: usize, scale: Scale, output: &mut W) -> io::Result<()> {
    let place = |row: &Row| row.columns().get(index).map_or(0, |column| column.count);
    let Some(Column { color, dashes, .. }) = Row::default().columns().get(index).copied() else {
        return Ok(());
    };
    write!(
        output,
        "<path fill='none' stroke='{color}' stroke-dasharray='{dashes}' d='M90 520"
    )?;
    for row in rows {
        write!(output, "H{}V{}", scale.across(row), scale.down(place(row)))?;
    }
    writeln!(output, "'/>")
}

// Writes the name of each column at the end of its line, or as far above it as the names of lower lines want.
fn draw_names<W: Write>(last: &Row, scale: Scale, output: &mut W) -> io::Result<()> {
    let mut ends = [(0u64, 0usize); 6];
    for (end, (index, column)) in ends.iter_mut().zip(last.columns().into_iter().enumerate()) {
        *end = (scale.down(column.count), index);
    }
    ends.sort_unstable();
    let (x, mut below) = (scale.across(last), 542u64);
    for rank in (0..6usize).rev() {
        let (end, index) = ends[rank];
        let highest = 100 + 22 * rank as u64;
        let y = end.min(below.saturating_sub(22)).max(highest);
        below = y;
        let Some(column) = last.columns().get(index).copied() else {
            continue;
        };
        draw_name(column, (x, end), y, output)?;
    }
    Ok(())
}

// Draws the name of a line, the line's look beside it, and a line from where it ends to there.
fn draw_name<W: Write>(column: Column, end: (u64, u64), y: u64, output: &mut W) -> io::Result<()> {
    let (x, end) = end;
    let Column {
        name,
        color,
        dashes,
        ..
    } = column;
    writeln!(
        output,
        "<path d='M{x} {end}L800 {y}' stroke='#aaa' stroke-width='1'/>"
    )?;
    writeln!(
        output,
        "<path d='M805 {y}h40' stroke='{color}' stroke-dasharray='{dashes}'/>"
    )?;
    writeln!(output, "<text x='852' y='{y}' dy='5'>{name}</text>")
}

// Which payloads are lost.
fn write_losses<W: Write>(loss: u64, output: &mut W) -> io::Result<()> {
    match loss {
        0 => write!(output, "no payload lost, "),
        loss => write!(output, "one of {loss} payloads lost, "),
    }
}

// Which payloads are late.
fn write_order<W: Write>(reorder: u64, output: &mut W) -> io::Result<()> {
    match reorder {
        0 => write!(output, "none late"),
        reorder => write!(output, "one of {reorder} late"),
    }
}

// How much is sent over which network.
fn write_title<W: Write>(plan: &Plan, output: &mut W) -> io::Result<()> {
    let (seed, bytes) = (plan.seed, plan.bytes);
    write!(output, "{bytes} bytes of a stream, seed {seed}, ")?;
    write_losses(plan.loss, output)?;
    write_order(plan.reorder, output)
}

// What was simulated, and how it ended.
fn write_head<W: Write>(plan: &Plan, given: u64, words: &str, output: &mut W) -> io::Result<()> {
    let (payload, receive) = (plan.payload, plan.receive_window);
    let (stream, send) = (plan.stream_window, plan.send_window);
    write!(output, "<text x='90' y='28' font-size='18'>")?;
    write_title(plan, output)?;
    writeln!(output, "</text>")?;
    writeln!(
        output,
        "<text x='90' y='52'>payloads of {payload} bytes; windows: receive {receive}, stream {stream}, send {send}</text>"
    )?;
    writeln!(
        output,
        "<text x='90' y='76'>given {given} bytes, {words}</text>"
    )
}

// The ground of a picture, and its title.
fn write_ground<W: Write>(plan: &Plan, output: &mut W) -> io::Result<()> {
    write!(
        output,
        "<svg xmlns='http://www.w3.org/2000/svg' viewBox='0 0 1000 590' width='1000' height='590' role='img'>\n<title>"
    )?;
    write_title(plan, output)?;
    writeln!(
        output,
        "</title>\n<rect width='1000' height='590' rx='8' fill='white'/>\n<g font-family='sans-serif' font-size='15' stroke-width='2.5'>"
    )
}

// Draws rows as an SVG picture.
fn write_picture<W: Write>(
    rows: &[Row],
    plan: &Plan,
    words: &str,
    output: &mut W,
) -> io::Result<()> {
    let last = rows.last().copied().unwrap_or_default();
    let scale = Scale {
        steps: fourth(last.step),
        bytes: fourth(last.credit.max(last.sent_again())),
    };
    write_ground(plan, output)?;
    write_head(plan, last.given, words, output)?;
    draw_axes(scale, output)?;
    for index in 0..6usize {
        draw_line(rows, index, scale, output)?;
    }
    draw_names(&last, scale, output)?;
    writeln!(output, "</g></svg>")
}
