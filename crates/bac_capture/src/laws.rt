//! Laws of the definitions: empty functions whose contracts are the laws.
ghost use Rattle.std.specs.Prelude.{◌≡◌, ◌≤◌, ◌+◌, ◌++◌, ℕ, List, length, replicate};
ghost use Rattle.std.specs.List.{concat};
ghost use Rattle.bac_capture.specs.declared.moment.TheConstants.{OPTION_LIMIT};
ghost use Rattle.bac_capture.specs.declared.order.Order.TheVariants.{Big};
ghost use Rattle.bac_capture.specs.Moments.{resolution_in};
ghost use Rattle.bac_capture.specs.Options.{comment, end_of_options, nanoseconds};
ghost use Rattle.bac_capture.specs.Runs.{kept};

/// The longest IP packet is kept whole: 65,535 octets after an IPv6 header (40), preceded by an Ethernet header with two
/// tags (22; Linux's cooked captures have 20) and the numbers of its block (16).
#[tactic(auto, using(crate::proofs::Limits::longest_kept))]
pub fn longest_packet_is_kept()
    ensures { (run : List ℕ) → length run ≤ 16 + 22 + 40 + 65535 → kept run ≡ run }
{}

/// The option for the unit of timestamps is used if it is among the first 64 options and before the end of options.
#[tactic(auto, using(crate::proofs::Limits::last_option, crate::proofs::Limits::option_beyond, crate::proofs::Limits::options_ended))]
pub fn options_that_count()
    ensures last { resolution_in OPTION_LIMIT Big (concat (replicate 63 comment) ++ nanoseconds) ≡ 9 }
    ensures beyond { resolution_in OPTION_LIMIT Big (concat (replicate 64 comment) ++ nanoseconds) ≡ 6 }
    ensures ended { resolution_in OPTION_LIMIT Big (end_of_options ++ nanoseconds) ≡ 6 }
{}
