// The first bytes of files.
use anyhow::anyhow;
use console::file_bytes;
use std::fs::File;
use std::io;
use std::io::{ErrorKind, Read};

// A missing file is empty.
pub(crate) fn read_file(rt: &HostRuntime, path: &str) -> anyhow::Result<Vec<u8>> {
    match open_and_read(rt, path) {
        Err(e) if e.kind() == ErrorKind::NotFound => Ok(Vec::new(rt.alloc())),
        read => naming(path, read),
    }
}

// A file that was named must be there.
pub(crate) fn read_named(rt: &HostRuntime, path: &str) -> anyhow::Result<Vec<u8>> {
    naming(path, open_and_read(rt, path))
}

// Path and cause are one message and no context, so that a message that is too long is cut at its end.
fn naming(path: &str, read: io::Result<Vec<u8>>) -> anyhow::Result<Vec<u8>> {
    read.map_err(|e| anyhow!("{path}: {e}"))
}

// Parts of one size, until there are enough bytes. Where the file is the standard input, what `take` left of a part would be read as lines.
fn open_and_read(rt: &HostRuntime, path: &str) -> io::Result<Vec<u8>> {
    let most = file_bytes();
    let mut file = File::open(rt, path)?;
    let mut bytes = Vec::new(rt.alloc());
    // Each turn but the last brings a byte, so these are enough.
    for _ in 0..most {
        if read_part(&mut file, &mut bytes)? == 0 || bytes.len() >= most {
            break;
        }
    }
    bytes.truncate(most);
    Ok(bytes)
}

// Adds what one read brings, and answers how many bytes these are.
fn read_part(file: &mut File, bytes: &mut Vec<u8>) -> io::Result<usize> {
    let mut part = [0; 4096];
    let count = file.read(&mut part)?;
    bytes.extend_from_slice(&part[..count])?;
    Ok(count)
}
