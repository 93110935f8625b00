//! Commands of replication.
use repl_cmd::{ParameterName, SlotName, parse_command, print_command};
use repl_text::is_slot_name;
use rows_table::{Answer, Call, Miss, debug, said};
use std::alloc::Global;

pub fn answer(alloc: Global, call: &Call) -> Answer {
    if let Some([bytes]) = call.words("is_slot_name") {
        return debug(alloc, &is_slot_name(bytes));
    }
    if let Some([bytes]) = call.words("slot_name") {
        return slot_name(alloc, bytes);
    }
    if let Some([bytes]) = call.words("parameter_name") {
        return parameter_name(alloc, bytes);
    }
    if let Some([text]) = call.words("command") {
        return parsed(alloc, text);
    }
    if let Some([text]) = call.words("printed") {
        return printed(alloc, text);
    }
    Err(Miss::Call)
}

fn slot_name(alloc: Global, bytes: &Vec<u8>) -> Answer {
    match SlotName::new(bytes.clone()?) {
        Some(name) => Ok(name.as_slice().to_vec(alloc)?),
        None => said(alloc, "none"),
    }
}

fn parameter_name(alloc: Global, bytes: &Vec<u8>) -> Answer {
    match ParameterName::new(bytes.clone()?) {
        Some(name) => Ok(name.as_slice().to_vec(alloc)?),
        None => said(alloc, "none"),
    }
}

/// The command that a text says, or what is wrong with it.
fn parsed(alloc: Global, text: &[u8]) -> Answer {
    match parse_command(alloc, text) {
        Ok(command) => debug(alloc, &command),
        Err(fault) => debug(alloc, &fault),
    }
}

/// The same command, as it is printed.
fn printed(alloc: Global, text: &[u8]) -> Answer {
    match parse_command(alloc, text) {
        Ok(command) => Ok(print_command(alloc, &command)?),
        Err(fault) => debug(alloc, &fault),
    }
}
