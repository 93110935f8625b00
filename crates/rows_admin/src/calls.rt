//! The calls of rows.
use crate::{building, damages, files, stops, tools};
use repl_disk::MemoryDisk;
use repl_lsn::{Lsn, Tli};
use rows_table::{Answer, Call, Miss, number, said, short, text};
use std::alloc::Global;

pub fn answer(alloc: Global, disk: &mut MemoryDisk, call: &Call) -> Answer {
    if let Some([]) = call.words("fresh") {
        *disk = MemoryDisk::new(alloc, Vec::new(alloc));
        return said(alloc, "done");
    }
    if let Some(words) = call.words("init") {
        return tools::init(alloc, disk, words);
    }
    if let Some([]) = call.words("status") {
        return tools::status(alloc, disk);
    }
    if let Some([]) = call.words("check") {
        return tools::check(alloc, disk);
    }
    if let Some([how, way, words @ ..]) = call.words("stops") {
        return stops::answer(alloc, how, way, words);
    }
    build(alloc, disk, call)
}

/// Calls that change a store by its own calls.
fn build(alloc: Global, disk: &mut MemoryDisk, call: &Call) -> Answer {
    if let Some([count, length]) = call.words("append") {
        return building::append(alloc, disk, number(count)?, number(length)?);
    }
    if let Some([tli]) = call.words("switch") {
        let tli = Tli::new(short(tli)?).ok_or(Miss::Words)?;
        return building::switch(alloc, disk, tli);
    }
    if let Some([floor]) = call.words("raise") {
        return building::raise(alloc, disk, Lsn(number(floor)?));
    }
    if let Some([bytes]) = call.words("write") {
        return building::write(alloc, disk, bytes);
    }
    damage(alloc, disk, call)
}

/// Calls that do damage to a file, have the store judged, and put the file back.
fn damage(alloc: Global, disk: &mut MemoryDisk, call: &Call) -> Answer {
    if let Some([name, at, bytes]) = call.words("changed") {
        return damages::changed(alloc, disk, text(name)?, number(at)?, bytes);
    }
    if let Some([name, size]) = call.words("cut") {
        return damages::cut(alloc, disk, text(name)?, number(size)?);
    }
    if let Some([name, bytes]) = call.words("past") {
        return damages::past(alloc, disk, text(name)?, bytes);
    }
    if let Some([name, bytes]) = call.words("instead") {
        return damages::instead(alloc, disk, text(name)?, bytes);
    }
    if let Some([name]) = call.words("gone") {
        return damages::gone(alloc, disk, text(name)?);
    }
    files::answer(alloc, disk, call)
}
