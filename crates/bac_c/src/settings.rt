//! The settings of a node, as a C program says them.
ghost use Rattle.std.specs.Prelude.{◌≡◌, true, IfOk, IsErrOf, IsTrue, OnErr};
ghost use Rattle.bac_node.specs.Fresh.{has_large_slots, window_fits};
ghost use Rattle.bac_c.specs.Starting.{IsConfigOf, are_zeros, is_right, memory_fits, memory_of, rules_by};

use crate::fault::Fault;
use crate::records::Settings;
use bac_apdu::Limits;
use bac_node::{Config, MEMORY};
use bac_transaction::Rules;

/// How many octets the settings of this version have.
pub const SETTINGS_SIZE: usize = 48;

/// How many slots a table has at the most.
const MOST_SLOTS: usize = 65_536;

/// Whether nothing is in the room for members of later versions.
fn is_empty_room(later: &[u8]) -> bool
    ensures { result ≡ are_zeros later.now }
{
    later.iter().all(|octet| *octet == 0)
}

/// The least number of octets that a node may keep: a request needs room for 65,539 beside its own.
const LEAST_MEMORY: u32 = 65_540;

/// Whether a node may keep so many octets; 0 stands for 64 MiB.
fn is_memory(memory: u32) -> bool
    ensures { result ≡ memory_fits memory }
{
    memory == 0 || memory >= LEAST_MEMORY
}

/// How many octets a node may keep: 64 MiB where the settings say 0.
fn memory_of(settings: &Settings) -> usize
    ensures { result ≡ memory_of settings.now.memory }
{
    if settings.memory == 0 {
        MEMORY
    } else {
        settings.memory as usize
    }
}

/// The rules by which a node serves.
pub fn rules_by(settings: &Settings) -> Rules
    ensures { result ≡ rules_by settings.now }
{
    Rules::of(settings.reuse_invoke_ids).within(memory_of(settings))
}

/// The configuration of a node; `BadSettings` exactly where one is outside its range.
pub fn config_of(settings: &Settings) -> Result<Config, Fault>
    ensures says { IfOk result (IsConfigOf settings.now) }
    ensures slots { IfOk result (λ c. has_large_slots c ≡ true) }
    ensures window { IfOk result (λ c. window_fits c.window ≡ true) }
    ensures right { IfOk result (λ c. IsTrue (is_right settings.now)) }
    ensures wrong { OnErr result (IsTrue (is_right settings.now) → ⊥) }
    ensures bad { OnErr result (IsErrOf result Fault.BadSettings) }
{
    // another size is that of another version of the header
    if settings.size != SETTINGS_SIZE || !is_empty_room(&settings.later) {
        return Err(Fault::BadSettings);
    }
    if !is_memory(settings.memory) {
        return Err(Fault::BadSettings);
    }
    if settings.window < 1 || settings.window > 64 {
        return Err(Fault::BadSettings);
    }
    if settings.client_slots < 1 || settings.client_slots > MOST_SLOTS {
        return Err(Fault::BadSettings);
    }
    if settings.reply_slots < 1 || settings.reply_slots > MOST_SLOTS {
        return Err(Fault::BadSettings);
    }
    let Some(limits) = Limits::new(
        settings.max_apdu,
        settings.takes_segments,
        settings.max_segments,
    ) else {
        return Err(Fault::BadSettings);
    };
    Ok(Config {
        link: settings.link,
        limits,
        window: settings.window,
        client_slots: settings.client_slots,
        reply_slots: settings.reply_slots,
    })
}
