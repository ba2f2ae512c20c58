//! Reading a directory, and changing it line by line.
ghost use Rattle.std.specs.Prelude.{◌<◌};

use dir_core::Directory;
use dir_text::{apply_changes, read_directory};
use std::alloc::{AllocError, Global};

// The most accounts of a directory.
const MOST_ACCOUNTS: u32 = 100_000;

// The longest batch, in bytes.
const MOST_BYTES: usize = 1 << 24;

/// How many accounts are disabled in a directory of so many accounts, after so many lines that disable one of them each.
pub fn changed(alloc: Global, accounts: u32, lines: u32) -> Option<Vec<u8>> {
    if accounts == 0 || accounts > MOST_ACCOUNTS {
        return None;
    }
    let text = directory_text(alloc, accounts).ok()?;
    let mut dir = read_directory(alloc, text.as_bytes()).ok()?;
    let batch = batch_text(alloc, accounts, lines).ok()?;
    if batch.len() > MOST_BYTES {
        return None;
    }
    apply_changes(alloc, &mut dir, batch.as_bytes()).ok()?;
    disabled(&dir)?.to_be_bytes().to_vec(alloc).ok()
}

// A realm with accounts, each with a service principal name.
fn directory_text(alloc: Global, accounts: u32) -> Result<String, AllocError> {
    let mut text = String::from_str(
        alloc,
        r#"{"realms":[{"name":"R","sid":"S-1-5-21-1","krbtgt":{"etype":17,"kvno":1,"key":"00000000000000000000000000000001"},"accounts":["#,
    )?;
    for i in 0..accounts {
        if i != 0 {
            text.push_str(",")?;
        }
        let number = i as u64 + 1;
        let key = i as u64 + 2;
        let account = format!(in alloc;
            r#"{{"name":"u{i}","number":{number},"key":{{"etype":17,"kvno":1,"key":"{key:032x}"}},"spns":["s/{i}"]}}"#
        )?;
        text.push_str(account.as_str())?;
    }
    text.push_str("]}]}")?;
    Ok(text)
}

// Lines that disable accounts here and there.
fn batch_text(alloc: Global, accounts: u32, lines: u32) -> Result<String, AllocError>
    requires { 0 < accounts }
{
    let mut text = String::new(alloc);
    for i in 0..lines {
        let account = i as u64 * 7919 % accounts as u64;
        let line = format!(in alloc; "set R u{account} disabled on\n")?;
        text.push_str(line.as_str())?;
    }
    Ok(text)
}

fn disabled(dir: &Directory) -> Option<u32> {
    if dir.realm_count() == 0 {
        return None;
    }
    let mut count = 0u32;
    for account in dir.realm(0).accounts.as_slice() {
        if account.disabled {
            count = count.saturating_add(1);
        }
    }
    Some(count)
}
