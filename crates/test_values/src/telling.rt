//! What is answered is told as one text, a word for each answer with a blank before it, so that a test compares one text.
//! A word that finds no memory is missing there. What is told is handed over, so no function that tells has anything to
//! let go.
use pybuf_value::{Fault, Made, Outcome, Text, Tried, push_bytes, push_number};

/// Adds a word.
pub fn tell(told: &mut Vec<u8>, word: &[u8]) {
    if told.push(b' ').is_ok() {
        drop(told.extend_from_slice(word));
    }
}

pub fn tell_number(told: &mut Vec<u8>, number: i128) {
    if told.push(b' ').is_ok() {
        drop(push_number(told, number));
    }
}

pub fn tell_truth(told: &mut Vec<u8>, truth: bool) {
    tell(told, if truth { b"yes" } else { b"no" });
}

/// Adds bytes as Python's `repr` writes them.
pub fn tell_bytes(told: &mut Vec<u8>, bytes: &[u8]) {
    if told.push(b' ').is_ok() {
        drop(push_bytes(told, bytes));
    }
}

/// The same of bytes that were made.
pub fn tell_made(told: &mut Vec<u8>, answer: Made<Vec<u8>>) {
    if let Ok(bytes) = answer {
        tell_bytes(told, bytes.as_slice());
    }
}

/// Adds the name of a refusal.
pub fn tell_fault(told: &mut Vec<u8>, fault: Fault) {
    tell(told, fault.python_name().as_bytes());
}

/// The same of a call that may refuse.
pub fn tell_tried(told: &mut Vec<u8>, answer: Tried<Vec<u8>>) {
    match answer {
        Ok(Outcome::Done(bytes)) => tell_bytes(told, bytes.as_slice()),
        Ok(Outcome::Refused(fault)) => tell_fault(told, fault),
        Err(_) => {}
    }
}

/// Adds a text that a call may refuse.
pub fn tell_text(told: &mut Vec<u8>, answer: Tried<Text>) {
    match answer {
        Ok(Outcome::Done(text)) => tell(told, text.as_slice()),
        Ok(Outcome::Refused(fault)) => tell_fault(told, fault),
        Err(_) => {}
    }
}

/// Adds a place, or `-` where there is none.
pub fn tell_place(told: &mut Vec<u8>, place: Option<usize>) {
    match place {
        Some(place) => tell_number(told, place as i128),
        None => tell(told, b"-"),
    }
}
