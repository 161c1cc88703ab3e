//! Run with each allocation refused in turn, too: `sh tests/memory/refused.sh`.
use super::holds;

mod codecs;
mod stores;
