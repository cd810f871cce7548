// What the system says of an error.
use std::io::{Error, Write};

// The system's words for an error, without the number that std puts behind them. They are kept in the bytes lent, as many as have room there.
pub fn system_words<'a>(error: &Error, room: &'a mut [u8]) -> &'a str {
    let most = room.len();
    let mut rest: &mut [u8] = &mut *room;
    let _ = write!(rest, "{error}");
    let n = most.saturating_sub(rest.len());
    match str::from_utf8(&room[..n]) {
        Ok(text) => before_number(text),
        Err(_) => "",
    }
}

fn before_number(text: &str) -> &str {
    text.split_once(" (os error ")
        .map_or(text, |(words, _)| words)
}
