// The memory that the replays lend: set as a frame says, and its checksum.
#![tactic(auto)]

use frames::Words;
use lent_parts::Part;
use model::Head;
use part_board::{BoardMut, BoardRef};

// The checksum of a head.
pub fn head_checksum(head: Head) -> u64 {
    let operators = lent_parts::add(0, u32::from(head.operators));
    let rides = lent_parts::add(operators, u32::from(head.rides));
    lent_parts::add(rides, u32::from(head.pairs))
}

// The parts of a board, and what calls are lent beside them.
#[derive(Drop)]
pub struct Memory<'a> {
    pub operators: Part<'a, u16>,
    pub rides: Part<'a, u16>,
    pub stamps: Part<'a, u32>,
    pub revisions: Part<'a, u16>,
    pub index: Part<'a, u16>,
    pub presence_stamps: Part<'a, u32>,
    pub presence_revisions: Part<'a, u16>,
    pub presence: Part<'a, u16>,
    pub minimums: Part<'a, u16>,
    pub marks: Part<'a, u16>,
    pub answers: Part<'a, u16>,
}

impl Memory<'_> {
    // Lends nothing: a look-up in a crowd table has no parts.
    pub fn clear(&mut self) {
        self.operators.clear();
        self.rides.clear();
        self.stamps.clear();
        self.revisions.clear();
        self.index.clear();
        self.presence_stamps.clear();
        self.presence_revisions.clear();
        self.presence.clear();
        self.minimums.clear();
        self.marks.clear();
        self.answers.clear();
    }

    // Lends the parts of a board, as the next words of a frame say.
    pub fn load_board(&mut self, words: &mut Words<'_>) {
        self.clear();
        self.operators.load(words);
        self.rides.load(words);
        self.stamps.load(words);
        self.revisions.load(words);
        self.index.load(words);
        self.presence_stamps.load(words);
        self.presence_revisions.load(words);
        self.presence.load(words);
    }

    // Lends the parts of a board, and a message list's answers.
    pub fn load_list(&mut self, words: &mut Words<'_>) {
        self.load_board(words);
        self.answers.load(words);
    }

    // Lends what a query has.
    pub fn load_query(&mut self, words: &mut Words<'_>) {
        self.clear();
        self.index.load(words);
        self.presence.load(words);
        self.marks.load(words);
    }

    // Lends what a frame of no known call has: the pairs and the presence.
    pub fn load_pairs(&mut self, words: &mut Words<'_>) {
        self.clear();
        self.operators.load(words);
        self.rides.load(words);
        self.presence.load(words);
    }

    // Lends what a peel and the covers have.
    pub fn load_cover(&mut self, words: &mut Words<'_>) {
        self.load_pairs(words);
        self.minimums.load(words);
        self.marks.load(words);
    }

    // The board that is lent.
    pub fn board(&mut self, head: Head) -> BoardMut<'_> {
        BoardMut {
            head,
            operators: self.operators.lent(),
            rides: self.rides.lent(),
            stamps: self.stamps.lent(),
            revisions: self.revisions.lent(),
            index: self.index.lent(),
            presence_stamps: self.presence_stamps.lent(),
            presence_revisions: self.presence_revisions.lent(),
            presence: self.presence.lent(),
        }
    }

    // The same, to read.
    pub fn read(&self, head: Head) -> BoardRef<'_> {
        BoardRef {
            head,
            operators: self.operators.read(),
            rides: self.rides.read(),
            stamps: self.stamps.read(),
            revisions: self.revisions.read(),
            index: self.index.read(),
            presence_stamps: self.presence_stamps.read(),
            presence_revisions: self.presence_revisions.read(),
            presence: self.presence.read(),
        }
    }

    // The checksum of a head, if there is one, and of all that is lent.
    pub fn checksum(&self, head: Option<Head>) -> u64 {
        let mut sum = self.operators.checksum(head.map_or(0, head_checksum));
        sum = self.rides.checksum(sum);
        sum = self.stamps.checksum(sum);
        sum = self.revisions.checksum(sum);
        sum = self.index.checksum(sum);
        sum = self.presence_stamps.checksum(sum);
        sum = self.presence_revisions.checksum(sum);
        sum = self.presence.checksum(sum);
        sum = self.minimums.checksum(sum);
        sum = self.marks.checksum(sum);
        self.answers.checksum(sum)
    }
}
