// Runs the cases of data/: for each call its name, and then a line for each case with the answer and what the call left in each
// lent output. The independent program's text is the file stdout.
#![tactic(auto)]

mod calls;
mod listing_cases;
mod text_cases;

use calls::{CALLS, Call};
use case_text::Arguments;
use intake::read_full;
use std::rt::Files;
use std::{fs, io};
use stored_cases::{byte_cases, choice_cases, reader_cases};
use tree_cases::{cost_cases, link_cases, team_cases};

// Runs the next case. Only those of reports keep bytes for the next.
fn one_case(
    rt: &impl Print,
    call: Call,
    arguments: &mut Arguments<'_>,
    kept: &mut [u8],
) -> io::Result<()> {
    match call {
        Call::Index => cost_cases::index_case(rt, arguments),
        Call::Order => cost_cases::order_case(rt, arguments),
        Call::Measured => cost_cases::measured_case(rt, arguments),
        Call::Exact => cost_cases::exact_case(rt, arguments),
        Call::ExactGrafted => cost_cases::exact_grafted_case(rt, arguments),
        Call::Compare => cost_cases::compare_case(rt, arguments),
        Call::Path => link_cases::path_case(rt, arguments),
        Call::UpperRows => link_cases::upper_rows_case(rt, arguments),
        Call::Route => link_cases::route_case(rt, arguments),
        Call::Consensus => team_cases::team_case(rt, arguments),
        Call::WriteCosts => writer_cases::write_costs_case(rt, arguments),
        Call::WriteLinks => writer_cases::write_links_case(rt, arguments),
        Call::WriteBatch => writer_cases::write_batch_case(rt, arguments),
        Call::ConvertCosts => writer_cases::convert_costs_case(rt, arguments),
        Call::ConvertLinks => writer_cases::convert_links_case(rt, arguments),
        Call::ReadCosts => byte_cases::read_costs_case(rt, arguments),
        Call::ReadLinks => byte_cases::read_links_case(rt, arguments),
        Call::Choice => choice_cases::choice_case(rt, arguments),
        Call::FirstTwo => reader_cases::first_two_case(rt, arguments),
        Call::FirstLinks => reader_cases::first_links_case(rt, arguments),
        Call::TwoCosts => reader_cases::two_costs_case(rt, arguments),
        Call::TwoFields => reader_cases::two_fields_case(rt, arguments),
        Call::WriteNewick => newick_cases::write_newick_case(rt, arguments),
        Call::ReadNewick => newick_cases::read_newick_case(rt, arguments),
        Call::RefusalText => text_cases::text_case(rt, arguments),
        Call::Listing => listing_cases::listing_case(rt, arguments),
        Call::Replay => leaving_cases::replay_case(rt, arguments),
        Call::Report => report_cases::report_case(rt, arguments, kept),
        Call::Levels => level_cases::levels_case(rt, arguments),
        Call::LevelsListing => level_cases::listing_case(rt, arguments),
    }
}

// Runs every case of a text, which has fewer cases than bytes.
fn every_case(rt: &impl Print, call: Call, text: &[u8]) -> io::Result<()> {
    let mut arguments = Arguments::new(text);
    let mut kept = [0u8; 27000];
    for _ in 0..text.len() {
        if arguments.is_empty() {
            break;
        }
        one_case(rt, call, &mut arguments, &mut kept)?;
        println!(rt)?;
    }
    Ok(())
}

// Runs the cases of one call, from its file. A file that cannot be opened is named on standard error, and the next call's is run.
fn run(rt: &(impl Files + Print + Eprint), call: Call, file: &str) -> io::Result<()> {
    println!(rt; "{}", file.trim_end_matches(".txt"))?;
    let mut cases = match fs::open(rt, file) {
        Ok(cases) => cases,
        Err(e) => return eprintln!(rt; "{file}: {e}"),
    };
    let mut buffer = [0u8; 400000];
    let length = read_full(&mut cases, &mut buffer);
    every_case(rt, call, &buffer[..length])
}

fn main(rt: HostRuntime) -> io::Result<()> {
    for (call, file) in CALLS {
        run(&rt, call, file)?;
    }
    Ok(())
}
