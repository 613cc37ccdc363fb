// The message and message list calls of a frame, sent through `call_message::deliver`: a list is delivered message by message. Each writes its answer's
// numbers, and answers the head after it.
#![tactic(auto)]

use frames::Words;
use model::{Head, Message};
use refusal_kind::Refusal;
use replay_memory::Memory;
use std::io;
use std::io::Write;

// Delivers a message to the board that is lent, and answers how many index words differ before and after.
fn deliver(head: &mut Head, message: Message, memory: &mut Memory<'_>) -> Result<u16, Refusal> {
    let mut board = memory.board(*head);
    let answer = call_message::deliver(&mut board, message);
    *head = board.head;
    answer
}

// A message.
pub fn message<W: Write>(
    out: &mut W,
    words: &mut Words<'_>,
    memory: &mut Memory<'_>,
) -> io::Result<Head> {
    let mut head = words.head();
    let message = words.message();
    memory.load_board(words);
    let (code, differ) = match deliver(&mut head, message, memory) {
        Ok(differ) => (0, differ),
        Err(refusal) => (refusal.number(), 0),
    };
    frames::print(out, code)?;
    frames::print(out, differ)?;
    Ok(head)
}

// Delivers the next so many messages of a frame, one after another, an answer for each.
fn deliver_all(head: &mut Head, count: usize, words: &mut Words<'_>, memory: &mut Memory<'_>) {
    for i in 0..count {
        let code = Refusal::number_of(deliver(head, words.message(), memory));
        if let Some(answer) = memory.answers.lent().get_mut(i) {
            *answer = code;
        }
    }
}

// Checks a message list of so many messages.
fn check_list(head: Head, messages: usize, memory: &Memory<'_>) -> Result<(), Refusal> {
    refusal_message::check_list(memory.read(head), messages, memory.answers.read())
}

// A message list: its messages, if its own number, which is written, is 0.
pub fn list<W: Write>(
    out: &mut W,
    words: &mut Words<'_>,
    memory: &mut Memory<'_>,
) -> io::Result<Head> {
    let mut head = words.head();
    let count = usize::from(words.word());
    let mut messages = *words;
    memory.load_list(&mut words.behind(6 * count));
    let checked = check_list(head, count, memory);
    frames::print(out, Refusal::number_of(checked))?;
    if checked.is_ok() {
        deliver_all(&mut head, count, &mut messages, memory);
    }
    Ok(head)
}
