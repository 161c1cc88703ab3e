//! The key of this host, which only its programs know.
use crate::replacing::{name_beside, write_new};
use bac_pairs::PairKey;
use std::io::ErrorKind;
use std::random::RandomSource;
use std::{env, fs, io};

/// The number of this boot, which the system draws: all its users can read it.
const BOOT_ID: &str = "/proc/sys/kernel/random/boot_id";

/// How many octets a key file has.
const KEY: usize = 32;

fn no_memory() -> io::Error {
    io::Error::from(ErrorKind::OutOfMemory)
}

/// A path below the folder that a variable names.
fn below(rt: &HostRuntime, variable: &str, path: &str) -> io::Result<String> {
    let Ok(folder) = env::var(rt, variable) else {
        return Err(io::Error::from(ErrorKind::NotFound));
    };
    match format!(in rt.alloc(); "{folder}{path}") {
        Ok(path) => Ok(path),
        Err(_) => Err(no_memory()),
    }
}

/// The folder in which a program keeps its state: that of its service, or of its user.
fn state_folder(rt: &HostRuntime) -> io::Result<String> {
    if let Ok(folder) = below(rt, "STATE_DIRECTORY", "") {
        return Ok(folder);
    }
    if let Ok(folder) = below(rt, "XDG_STATE_HOME", "/bac") {
        return Ok(folder);
    }
    below(rt, "HOME", "/.local/state/bac")
}

/// Makes a file of random octets at a path, whole at once, where there is none.
fn make_key(rt: &HostRuntime, path: &str) -> io::Result<()> {
    let mut octets = [0; KEY];
    rt.fill_bytes(&mut octets)?;
    let name = name_beside(rt, path)?;
    write_new(rt, &name, &octets)?;
    // a link takes no other file's place: of two programs that begin at once one makes the key
    let linked = fs::hard_link(rt, &name, path);
    fs::remove_file(rt, &name)?;
    match linked {
        Err(error) if error.kind() != ErrorKind::AlreadyExists => Err(error),
        _ => Ok(()),
    }
}

/// The key in a file.
fn read_key(rt: &HostRuntime, path: &str) -> io::Result<PairKey> {
    let octets = fs::read(rt, path)?;
    if octets.len() == KEY {
        Ok(PairKey::of_secret(&octets))
    } else {
        Err(io::Error::from(ErrorKind::InvalidData))
    }
}

/// The key in a file of the state folder, which is made where there is none.
fn kept_key(rt: &HostRuntime) -> io::Result<PairKey> {
    let folder = state_folder(rt)?;
    let Ok(path) = format!(in rt.alloc(); "{folder}/client-key") else {
        return Err(no_memory());
    };
    if let Ok(key) = read_key(rt, &path) {
        return Ok(key);
    }
    fs::create_dir_all(rt, &folder)?;
    // read again after it, as another program may have been first
    make_key(rt, &path)?;
    read_key(rt, &path)
}

/// The key of this host: of its boot, or where that is not told, of a file.
pub(crate) fn key_of_host(rt: &HostRuntime) -> io::Result<PairKey> {
    match fs::read(rt, BOOT_ID) {
        Ok(id) if !id.is_empty() => Ok(PairKey::of_secret(&id)),
        _ => kept_key(rt),
    }
}
