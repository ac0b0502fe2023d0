//! What is said of a proof, and how long its lines may be.
ghost use Rattle.std.specs.Prelude.{◌≡◌, length, nat_lt};
ghost use Rattle.lrat_judge.specs.Verdicts.{most_line};

use containers::limits::CERTIFICATE_BYTES;

/// What is known of a proof after some of its text.
#[derive(Clone, Copy, PartialEq, Eq)]
pub enum Verdict {
    /// Each line so far follows, and none adds the empty clause: the text goes on.
    More,
    /// The formula has the empty clause, or a line added it. What comes after that is not looked at.
    Refuted {
        /// How many clauses were added and deleted up to there. The count stands still at 18,446,744,073,709,551,615.
        entries: u64,
    },
    /// The first line that does not follow from the formula and the lines before it.
    Rejected {
        /// Its number, counted from 1.
        line: u64,
    },
    /// The text has ended, each line follows, and none adds the empty clause.
    NotEmpty,
    /// The first line that has more than `MOST_LINE` bytes.
    TooLong {
        /// Its number, counted from 1.
        line: u64,
    },
    /// The first line that is none.
    Syntax {
        /// The offset of its first byte in the text, from 0.
        at: u64,
    },
}

/// How many bytes a line of a proof may have, without its LF: as many as a certificate.
pub const MOST_LINE: usize = CERTIFICATE_BYTES as usize;

/// Whether a line, or the front of one, has more bytes than a line may have.
pub(crate) fn is_long(bytes: &[u8]) -> bool
    ensures { result ≡ nat_lt most_line (length bytes.now) }
{
    MOST_LINE < bytes.len()
}
