// hourledger: docs/PROGRAM.md says what it does. It reads, calls what is proved, and writes.
#![tactic(auto)]

mod asked;
mod dated;
mod form;
mod input;
mod made;
mod output;
mod ranges;
mod words;

use command::Command;
use std::io::Write;

// How the program is called. Where that cannot be written, there is nobody left to tell.
fn usage<W: Write + Drop>(mut out: W) {
    let _ = out.write_all(
        b"hourledger [ranges] < FORM\n\
        hourledger day ZONE YEAR MONTH DAY < FORM\n\
        hourledger graph ZONE YEAR MONTH DAY [--svg] < FORM\n\
        hourledger query START END QUERY FILE_A FILE_B\n\
        hourledger make < LINES > FORM\n\
        hourledger --help\n",
    );
}

fn main(rt: HostRuntime) {
    let command = words::asked(&rt);
    match command {
        Command::Ranges => ranges::run(&rt),
        Command::Dated(view, zone, year, month, day) => dated::run(
            &rt, view, zone, year, month, day,
        ),
        Command::Query(start, end) => asked::run(&rt, start, end),
        Command::Make => made::run(&rt),
        Command::Help => usage(rt.stdout()),
        Command::Other => usage(rt.stderr()),
    }
}
