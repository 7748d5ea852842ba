//! A table of lines, each with its answer.

ghost use Rattle.std.specs.Prelude.{None};

use super::*;

/// A line up to the byte that ends it, what comes after it, its answer, and whether it is a call.
#[derive(Drop)]
struct Row {
    line: &'static str,
    behind: &'static str,
    answer: &'static str,
    is_call: bool,
}

static ROWS: [Row; 12] = [
    Row {
        line: "\u{feff}1,enter,bid,500,200\n",
        behind: "",
        answer: "1: entered 1\n",
        is_call: true,
    },
    Row {
        line: "1,enter,bid,many,200\r",
        behind: "\n\r\n\n",
        answer: "record 2: bad field 4\n",
        is_call: false,
    },
    Row {
        line: "2,enter,\"ask\",300,199\n",
        behind: "",
        answer: "2: entered 2\n",
        is_call: true,
    },
    Row {
        line: "2,\"as\n",
        behind: "",
        answer: "record 4: quote not closed\n",
        is_call: false,
    },
    Row {
        line: "k\"\n",
        behind: "",
        answer: "record 5: bad member\n",
        is_call: false,
    },
    Row {
        line: "1,ask\n",
        behind: "",
        answer: "record 6: calls are reserved for the operator\n",
        is_call: false,
    },
    Row {
        line: "0,uncross\n",
        behind: "",
        answer: "3: opening price 200 volume 300 surplus 200 bid trades 1\n",
        is_call: true,
    },
    Row {
        line: "day,1,9\n",
        behind: "\n",
        answer: "record 8: bad member\n",
        is_call: false,
    },
    Row {
        line: "0,ask,1\n",
        behind: "",
        answer: "record 9: wrong number of fields\n",
        is_call: false,
    },
    Row {
        line: "0,ask\n",
        behind: "",
        answer: "4: no price bid 200 ask -\n",
        is_call: true,
    },
    Row {
        line: "0,ask\n",
        behind: "",
        answer: "record 11: too many commands\n",
        is_call: false,
    },
    Row {
        line: "0,ask",
        behind: "",
        answer: "record 12: cut off\n",
        is_call: false,
    },
];

/// How many of the rows are calls. The last two calls are the operator's.
const CALLS: u32 = 4;

/// Hands out the bytes of the rows, at most `step` a read, and looks before each read whether exactly the rows are
/// answered that were handed out, and before each answer whether the entries of its calls are committed.
#[derive(Drop)]
struct Table {
    step: usize,
    given: usize,
    // How many rows were answered, how many entries were committed, and whether all was in its turn.
    answered: usize,
    committed: usize,
    is_right: bool,
}

impl Table {
    fn new(step: usize) -> Table {
        Table {
            step,
            given: 0,
            answered: 0,
            committed: 0,
            is_right: true,
        }
    }

    /// How many rows have ended by what was handed out. The last one is answered at the end alone.
    fn ended(&self) -> usize {
        let mut begin = 0usize;
        let mut count = 0usize;
        for row in &ROWS {
            let end = begin.saturating_add(row.line.len());
            if row.line.ends_with(['\n', '\r']) && end <= self.given {
                count = count.saturating_add(1);
            }
            begin = end.saturating_add(row.behind.len());
        }
        count
    }

    /// How many of the rows that were answered are calls.
    fn calls(&self) -> usize {
        ROWS.iter()
            .take(self.answered)
            .filter(|row| row.is_call)
            .count()
    }

    /// The byte at this place of the input, if there is one.
    fn byte_at(place: usize) -> Option<u8> {
        let mut place = place;
        for row in &ROWS {
            for text in [row.line, row.behind] {
                if let Some(byte) = text.as_bytes().get(place) {
                    return Some(*byte);
                }
                place = place.saturating_sub(text.len());
            }
        }
        None
    }

    /// Takes the answer to the next row from the front of what was written.
    fn take_answer<'a>(&mut self, text: &'a [u8]) -> &'a [u8] {
        let answer = match ROWS.get(self.answered) {
            Some(row) => row.answer.as_bytes(),
            None => &[],
        };
        self.is_right &= !answer.is_empty();
        self.answered = self.answered.saturating_add(1);
        match text.strip_prefix(answer) {
            Some(rest) => rest,
            None => {
                self.is_right = false;
                &[]
            }
        }
    }
}

impl Conversation for Table {
    ghost left = { λ _. None };

    ghost written = { λ _. None };

    ghost committed = { λ _. None };

    ghost read_failures = { λ _. 0 };

    ghost write_failures = { λ _. 0 };

    ghost commit_failures = { λ _. 0 };

    ghost MayRead = { λ _. Unit {0} };

    ghost MayWrite = { λ _ _. Unit {0} };

    ghost Becomes = { λ a b. Unit {0} };

    ghost becomes_itself = { λ c. tt };

    ghost becomes_on = { λ a b c h k. tt };

    fn read(&mut self, buffer: &mut [u8]) -> Result<usize, SourceFailed> {
        self.is_right &= self.answered == self.ended();
        let most = buffer.len().min(self.step);
        for place in 0..most {
            let Some(byte) = Table::byte_at(self.given) else {
                return Ok(place);
            };
            buffer[place] = byte;
            self.given = self.given.saturating_add(1);
        }
        Ok(most)
    }

    fn commit(&mut self, entries: &[u8]) -> Result<(), CommitFailed> {
        let count = entries.iter().filter(|byte| **byte == b'\n').count();
        self.committed = self.committed.saturating_add(count);
        Ok(())
    }

    fn write(&mut self, text: &[u8]) -> Result<(), WriteFailed> {
        let mut rest = text;
        for _ in &ROWS {
            if !rest.is_empty() {
                rest = self.take_answer(rest);
            }
        }
        self.is_right &= rest.is_empty() && self.committed == self.calls();
        Ok(())
    }
}

/// A session whose device hands out `step` bytes a read answers each row in its turn.
fn answers_in_turn<T: Abort + AllocGlobal>(rt: &T, step: usize) -> Result<(), OpenFault> {
    let mut table = Table::new(step);
    let terms = SessionTerms {
        members: 4,
        reserve: 2,
    };
    let auction = auction_of(rt.alloc(), CALLS)?;
    let ended = run_live(rt.alloc(), &mut table, auction, terms);
    assert_eq!(rt; ended, Ok(Ending::SomeBad));
    assert!(rt; table.is_right && table.answered == ROWS.len());
    Ok(())
}

#[test]
fn each_line_is_answered_before_the_next_byte_is_read(rt: HostRuntime) -> Result<(), OpenFault> {
    answers_in_turn(&rt, 1)
}

#[test]
fn lines_may_come_in_any_pieces(rt: HostRuntime) -> Result<(), OpenFault> {
    for step in 2..40 {
        answers_in_turn(&rt, step)?;
    }
    Ok(())
}

#[test]
fn faults_come_in_the_place_of_replies(rt: HostRuntime) -> Result<(), OpenFault> {
    answers_in_turn(&rt, 4096)
}
