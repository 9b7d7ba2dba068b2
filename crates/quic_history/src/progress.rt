//! How far a reader of a stream has come.

ghost use Rattle.std.specs.Prelude.{◌≡◌, true, Err};
ghost use Rattle.quic_history.specs.Reading.{is_ended, IsLastAnswer, progress_of, IsLastOf};

use quic_assembler::Chunk;
use quic_receiving::ReadError;
use quic_values::VarInt;

/// How far a reader of a stream has come.
#[derive(Clone, Copy, Debug, PartialEq, Eq)]
pub enum Progress {
    /// More may be read.
    Readable,
    /// The peer gave the stream up, with this code. The half is freed.
    Reset(VarInt),
    /// All was read. The half is freed.
    Finished,
}

impl Progress {
    /// Whether nothing more comes.
    pub fn is_ended(self) -> bool
        ensures { result ≡ is_ended self }
    {
        match self {
            Progress::Readable => false,
            Progress::Reset(_) => true,
            Progress::Finished => true,
        }
    }

    /// What was told at the end, which a reader tells again.
    pub fn last_answer(self) -> Result<Option<Chunk>, ReadError>
        requires { is_ended self ≡ true }
        ensures { IsLastAnswer self result }
    {
        match self {
            Progress::Readable => unreachable!(),
            Progress::Reset(code) => Err(ReadError::Reset(code)),
            Progress::Finished => Ok(None),
        }
    }
}

/// Why several reads in a row gave no more.
#[derive(Clone, Copy, Debug, PartialEq, Eq)]
pub enum LastAnswer {
    /// Nothing is at hand yet.
    Blocked,
    /// All was given. The half is freed.
    Ended,
    /// The peer gave the stream up, with this code. The half is freed.
    Reset(VarInt),
    /// There was no memory to cut a chunk.
    Memory,
    /// As many chunks were given as were asked for.
    More,
}

impl LastAnswer {
    /// Where the reader is then.
    pub fn progress(&self) -> Progress
        ensures { result ≡ progress_of self.now }
    {
        match *self {
            LastAnswer::Blocked => Progress::Readable,
            LastAnswer::Ended => Progress::Finished,
            LastAnswer::Reset(code) => Progress::Reset(code),
            LastAnswer::Memory => Progress::Readable,
            LastAnswer::More => Progress::Readable,
        }
    }

    /// What a read that was refused means for those that would come after it.
    pub fn of_error(error: ReadError) -> LastAnswer
        ensures { IsLastOf (Err error) result }
    {
        match error {
            ReadError::Blocked => LastAnswer::Blocked,
            ReadError::Reset(code) => LastAnswer::Reset(code),
            ReadError::OutOfMemory => LastAnswer::Memory,
        }
    }
}
