// A board as a call is lent it: its head and its eight parts, to be read or to be changed.
#![tactic(auto)]

ghost use Rattle.std.specs.Prelude.{◌≡◌};
ghost use Rattle.part_board.specs.Lent.{ref_board, mut_board};

use model::Head;

// A board that is read.
#[derive(Clone, Copy)]
pub struct BoardRef<'a> {
    pub head: Head,
    pub operators: &'a [u16],
    pub rides: &'a [u16],
    pub stamps: &'a [u32],
    pub revisions: &'a [u16],
    pub index: &'a [u16],
    pub presence_stamps: &'a [u32],
    pub presence_revisions: &'a [u16],
    pub presence: &'a [u16],
}

// A board that is changed.
#[derive(Drop)]
pub struct BoardMut<'a> {
    pub head: Head,
    pub operators: &'a mut [u16],
    pub rides: &'a mut [u16],
    pub stamps: &'a mut [u32],
    pub revisions: &'a mut [u16],
    pub index: &'a mut [u16],
    pub presence_stamps: &'a mut [u32],
    pub presence_revisions: &'a mut [u16],
    pub presence: &'a mut [u16],
}

impl BoardMut<'_> {
    // The board to read.
    pub fn as_ref(&self) -> BoardRef<'_>
        ensures { ref_board result ≡ mut_board self.now }
    {
        BoardRef {
            head: self.head,
            operators: &*self.operators,
            rides: &*self.rides,
            stamps: &*self.stamps,
            revisions: &*self.revisions,
            index: &*self.index,
            presence_stamps: &*self.presence_stamps,
            presence_revisions: &*self.presence_revisions,
            presence: &*self.presence,
        }
    }
}
