//! The head of a chart: the name of each node.
ghost use Rattle.std.specs.Prelude.{◌≡◌, ◌<◌, IfOk, string_bytes};
ghost use Rattle.bac_chart.specs.Drawings.{head_text, name_text, names_text, participant_text};

use crate::drawing::ChartFormat;
use crate::row::filled;
use std::alloc::{AllocError, Global};

fn participant_text(alloc: Global, node: u64) -> Result<Vec<u8>, AllocError>
    ensures { IfOk result (λ t. t.items ≡ participant_text node) }
{
    let text = format!(in alloc; "    participant n{node} as node {node}\n")?;
    Ok(text.into_bytes())
}

fn name_text(alloc: Global, form: ChartFormat, nodes: u64, node: u64) -> Result<Vec<u8>, AllocError>
    requires { node < nodes }
    ensures { IfOk result (λ t. t.items ≡ name_text form nodes node) }
{
    match form {
        ChartFormat::Chart => {
            let name = format!(in alloc; "node {node}")?;
            filled(node + 1 == nodes, name.into_bytes())
        }
        ChartFormat::Mermaid => participant_text(alloc, node),
    }
}

fn names_text(alloc: Global, form: ChartFormat, nodes: u64) -> Result<Vec<u8>, AllocError>
    ensures { IfOk result (λ t. t.items ≡ names_text form nodes nodes) }
{
    let mut text = Vec::new(alloc);
    for node in 0..nodes {
        let name = name_text(alloc, form, nodes, node)?;
        text.extend_from_slice(&name)?;
    }
    Ok(text)
}

/// What stands above the lines of a chart.
pub(crate) fn head_text(alloc: Global, form: ChartFormat, nodes: u64) -> Result<Vec<u8>, AllocError>
    ensures { IfOk result (λ t. t.items ≡ head_text form nodes) }
{
    let names = names_text(alloc, form, nodes)?;
    let front: &[u8] = match form {
        ChartFormat::Chart => b"      ms  ",
        ChartFormat::Mermaid => b"sequenceDiagram\n",
    };
    let mut text = Vec::from_slice(alloc, front)?;
    text.extend_from_slice(&names)?;
    if form == ChartFormat::Chart {
        text.push(b'\n')?;
    }
    Ok(text)
}
