//! Worked rows, proved on the definition: which options the words of a line give.
#![tactic(auto, unfolding(crate::specs::Options::options_of, crate::specs::Arguments::simple_command, clap::proofs::OnLiterals::clap_on_literals))]

ghost use Rattle.std.specs.Prelude.{◌≡◌, [], None, codes, true};
ghost use Rattle.gr_cli.specs.Rows.{GivesOptions, HasFaultyValue, IsRefusedByClap, answer_to, run_options};
ghost use Rattle.gr_cli.specs.declared.settings.Command.TheVariants as command;
ghost use Rattle.gr_gen.specs.declared.programs.BenchKind.TheVariants as kind;

/// Lines that give options. It does nothing: its contract is what it tells.
pub fn accepted_rows()
    ensures defaults { GivesOptions (codes "run") run_options }
    ensures least { GivesOptions (codes "run --cores 1 --block 1 --limit 1 --slice 1")
        (record run_options { cores = 1; block = 1; limit = 1; slice = 1 }) }
    ensures least_clocks { GivesOptions (codes "run --steps 1 --events 1")
        (record run_options { steps = 1; events = 1 }) }
    ensures most { GivesOptions (codes "run --cores 16 --block 4096 --limit 256 --slice 65536")
        (record run_options { cores = 16; block = 4096; limit = 256; slice = 65536 }) }
    ensures most_clocks { GivesOptions (codes "run --steps 1099511627776 --events 1099511627776")
        (record run_options { steps = 1099511627776; events = 1099511627776 }) }
    ensures for_bench { GivesOptions (codes "bench --size 100000 --seed 18446744073709551615")
        (record run_options { command = command.Bench; size = 100000; seed = 18446744073709551615 }) }
    ensures flags { GivesOptions (codes "run --history --counts --kind queue")
        (record run_options { history = true; counts = true; kind = kind.Queue }) }
    ensures before { GivesOptions (codes "--kind sets replay")
        (record run_options { command = command.Replay; kind = kind.Sets }) }
    ensures leading_zero { GivesOptions (codes "run --cores 02") (record run_options { cores = 2 }) }
    ensures after_equals { GivesOptions (codes "run --cores=2") (record run_options { cores = 2 }) }
    ensures twenty_zeros { GivesOptions (codes "run --seed 00000000000000000000")
        (record run_options { seed = 0 }) }
    ensures after_end { GivesOptions (codes "-- check")
        (record run_options { command = command.Check }) }
{}

/// Lines that `clap` refuses. It does nothing: its contract is what it tells.
pub fn refused_rows()
    ensures no_words { answer_to [] ≡ (true, None) }
    ensures no_command { IsRefusedByClap (codes "--cores 1") }
    ensures two_commands { IsRefusedByClap (codes "run check") }
    ensures unknown { IsRefusedByClap (codes "run --fast") }
    ensures abbreviated { IsRefusedByClap (codes "run --core 1") }
    ensures twice { IsRefusedByClap (codes "run --cores 1 --cores 1") }
    ensures flag_twice { IsRefusedByClap (codes "run --history --history") }
    ensures no_value { IsRefusedByClap (codes "run --cores") }
    ensures flag_with_value { IsRefusedByClap (codes "run --history=true") }
    ensures minus { IsRefusedByClap (codes "run --cores -4") }
    ensures after_end { IsRefusedByClap (codes "run -- --cores 1") }
    ensures help { IsRefusedByClap (codes "--help") }
{}

/// Lines with a word that is no value of its argument. It does nothing: its contract is what it tells.
pub fn faulty_value_rows()
    ensures other_command { HasFaultyValue (codes "go") }
    ensures capital { HasFaultyValue (codes "Run") }
    ensures other_kind { HasFaultyValue (codes "run --kind queues") }
    ensures zero { HasFaultyValue (codes "run --cores 0") }
    ensures many_cores { HasFaultyValue (codes "run --cores 17") }
    ensures long_block { HasFaultyValue (codes "run --block 4097") }
    ensures high_limit { HasFaultyValue (codes "run --limit 257") }
    ensures many_steps { HasFaultyValue (codes "run --steps 1099511627777") }
    ensures long_slice { HasFaultyValue (codes "run --slice 65537") }
    ensures many_events { HasFaultyValue (codes "run --events 1099511627777") }
    ensures large_seed { HasFaultyValue (codes "run --seed 18446744073709551616") }
    ensures not_used { HasFaultyValue (codes "check --size 100001") }
    ensures plus { HasFaultyValue (codes "run --cores +4") }
    ensures hexadecimal { HasFaultyValue (codes "run --cores 0x4") }
    ensures empty { HasFaultyValue (codes "run --cores=") }
    ensures many_digits { HasFaultyValue (codes "run --cores 000000000000000000004") }
{}
