use crate::expected::Source;
use crate::slots::Slots;
use book::BookFault;
use replay::{SheetCall, SheetTold};
use sheet::SheetFault;

// What is known of a sheet: the length of its list, and how many slots it covers.
#[derive(Clone, Copy)]
pub struct Cover {
    room: usize,
    covered: usize,
}

impl Cover {
    pub fn new(room: usize) -> Cover {
        Cover { room, covered: 0 }
    }

    // The bytes that a summary is of, and none for a bring-up. Refuses a call by the smallest row that it meets, row 15 left out.
    fn expected<'b>(
        self,
        source: Source<'b>,
        slots: &Slots,
        call: SheetCall,
    ) -> Result<Option<&'b [u8]>, SheetFault> {
        match call {
            SheetCall::BringUp => {
                if slots.settled() > self.room {
                    return Err(SheetFault::TooShort);
                }
                source.check_texts()?;
                Ok(None)
            }
            SheetCall::Summary { version, from, len } => {
                let bytes = source.read(version, from, len)?;
                Ok(Some(bytes))
            }
        }
    }

    // Whether row 15 can come.
    fn uncovered(self, slots: &Slots, call: SheetCall) -> bool {
        match call {
            SheetCall::BringUp => false,
            SheetCall::Summary { version, .. } => slots.uncovered(version, self.covered),
        }
    }

    // Whether a call on a sheet was answered as the strings and the slots say; `value` gives the value of some bytes by its rule.
    pub(crate) fn agrees<V: Copy + PartialEq, F: Fn(&[u8]) -> V>(
        &mut self,
        source: Source,
        slots: &Slots,
        call: SheetCall,
        answer: Result<SheetTold<V>, SheetFault>,
        value: F,
    ) -> bool
        requires { F.IsAlwaysCallable value }
    {
        match (self.expected(source, slots, call), answer) {
            (Ok(_) | Err(SheetFault::Book(BookFault::OtherTexts)), Err(SheetFault::Uncovered)) =>
                self.uncovered(slots, call),
            (Err(fault), Err(given)) => fault == given,
            (Ok(None), Ok(SheetTold::Added(added))) => {
                let before = self.covered;
                self.covered = slots.settled();
                added == self.covered.saturating_sub(before)
            }
            (Ok(Some(bytes)), Ok(SheetTold::Value(given))) => given == value(bytes),
            _ => false,
        }
    }
}
