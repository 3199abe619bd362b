//! What `replay` writes for a script, and where that is otherwise than is due.

use cmd_run::run;
use memory_edges::{MemKeeper, MemSink, MemSource};
use std::alloc::{AllocError, Global};

/// What is written for a script that is read as a whole, but for long ones.
pub(crate) fn whole(alloc: Global, script: &str) -> Result<Vec<u8>, AllocError> {
    let bytes = Vec::from_slice(alloc, script.as_bytes())?;
    replay(alloc, MemSource::new(bytes, 4_096, Vec::new(alloc)))
}

/// What is written for a script without its last line feed, seven bytes of which are read at once.
pub(crate) fn in_pieces(alloc: Global, script: &str) -> Result<Vec<u8>, AllocError> {
    let unended = script.strip_suffix('\n').unwrap_or(script);
    let bytes = Vec::from_slice(alloc, unended.as_bytes())?;
    replay(alloc, MemSource::new(bytes, 7, Vec::new(alloc)))
}

/// What `replay` writes for what it reads, and its status behind it, if that isn't 0.
fn replay(alloc: Global, mut source: MemSource) -> Result<Vec<u8>, AllocError> {
    let mut words = Vec::new(alloc);
    words.push(String::from_str(alloc, "replay")?)?;
    let mut sink = MemSink::new(alloc, Vec::new(alloc));
    let mut keeper = MemKeeper::new(alloc, Vec::new(alloc));
    let status = run(alloc, words.as_slice(), &mut source, &mut sink, &mut keeper);
    let mut written = Vec::from_slice(alloc, sink.written())?;
    if status != 0 {
        let last = format!(in alloc; "status {status}\n")?;
        written.extend_from_slice(last.as_bytes())?;
    }
    Ok(written)
}

/// The first line that is written otherwise than is due, if one is.
pub(crate) fn first_otherwise<'a>(written: &'a [u8], due: &'a str) -> Option<&'a str> {
    let Ok(written) = str::from_utf8(written) else {
        return Some("no text");
    };
    let mut rows = due.lines();
    for line in written.lines() {
        if rows.next() != Some(line) {
            return Some(line);
        }
    }
    rows.next()
}
