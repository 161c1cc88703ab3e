//! Scripts, read with the network that they set.
ghost use Rattle.std.specs.Prelude.{◌≡◌, ◌+◌, ◌<◌, ◌^◌, length, MatchResult};
ghost use Rattle.bac_simulate.specs.Drawn.{rest_of, IsRead};
ghost use Rattle.bac_simulate.specs.Scripts.{IsModest, IsNotRead, script_of};
ghost use Rattle.bac_simulate.specs.Views.{setting_view};
ghost use Rattle.bac_text.specs.Lines.{lines_of};

use crate::read_script::ReadScript;
use crate::script::{FirstLine, ScriptFault, lines_in, read_first};
use crate::world_of::{script_world_of, world_of};
use std::alloc::Global;

/// What the lines behind the first one say, in the network that this sets.
fn read_rest(alloc: Global, notes: bool, first: FirstLine<'_>) -> Result<ReadScript, ScriptFault>
    requires modest { IsModest (setting_view first.setting) }
    requires few { first.number + length first.rest.now < 2 ^ 64 }
    ensures { MatchResult result (IsRead (rest_of notes first.entry)) (λ f. IsNotRead f (rest_of notes first.entry)) }
{
    let plain = world_of(alloc, &first.setting)?;
    match lines_in(alloc, &plain, notes, true, first.number, first.rest) {
        Ok(lines) => {
            let world = script_world_of(alloc, &first.setting, plain, &lines)?;
            Ok(ReadScript {
                nodes: first.setting.nodes,
                world,
                before: first.number,
                lines,
            })
        }
        Err(fault) => Err(fault),
    }
}

/// The script that these octets are.
pub(crate) fn read_script(
    alloc: Global,
    notes: bool,
    text: &[u8],
) -> Result<ReadScript, ScriptFault>
    ensures { MatchResult result (IsRead (script_of notes (lines_of text.now))) (λ f. IsNotRead f (script_of notes (lines_of text.now))) }
{
    let first = read_first(alloc, notes, text)?;
    read_rest(alloc, notes, first)
}
