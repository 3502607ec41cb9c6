//! Temporary folders and cluster files, for one test each.
use std::alloc::Global;
use std::fs;
use std::fs::Files;
use std::random::RandomSource;

/// Makes a new folder `/tmp/foqradesh-N`, with a random number N, and returns its name. `None` if it cannot be made.
pub fn folder<R: Files + RandomSource>(rt: &R, alloc: Global) -> Option<String> {
    let mut bytes = [0u8; 8];
    rt.fill_bytes(&mut bytes).ok()?;
    let number = u64::from_be_bytes(bytes);
    let name = format!(in alloc; "/tmp/foqradesh-{number}").ok()?;
    fs::create_dir(rt, name.as_str()).ok()?;
    Some(name)
}

/// Writes `text` to the file `cluster.toml` in a folder, and returns the file's name. `None` if it cannot be written.
pub fn file<R: Files>(rt: &R, alloc: Global, folder: &str, text: &[u8]) -> Option<String> {
    let name = format!(in alloc; "{folder}/cluster.toml").ok()?;
    fs::write(rt, name.as_str(), text).ok()?;
    Some(name)
}
