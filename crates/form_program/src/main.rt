// Runs the functions over lent structs through functions with plain parameters: a list of record structs is checked and solved,
// each of the refusals 1 to 4 is given at its first cause, and a lent counter is moved.
#![tactic(auto)]

mod lists;
mod output;

use definition::{Counts, Kind, Problem};
use form_records::Record;
use form_symbols::fresh_after;
use lists::{check_nine, kind_in_nine, place_in_nine};
use output::{number_of, say};
use solver::solve;
use std::io::Stdout;

// A kind that no record has.
const NO_KIND: usize = 6;

fn record_of(kind: usize, first: usize, second: usize, place: usize) -> Record {
    Record {
        kind,
        first,
        second,
        third: 0,
        fourth: 0,
        fifth: 0,
        place,
        rule: 0,
    }
}

// The records and the top-level entries of a problem without terms.
fn counts_of(records: usize, tops: usize) -> Counts {
    Counts {
        records,
        side: 8,
        tops,
        range: 0,
        terms: 0,
        sorts: 0,
    }
}

// Nine Ands, each the only child of the next; the first has the kind and the children that are passed.
fn nested(kind: usize, children: usize) -> [Record; 9] {
    let mut records = [record_of(kind, 0, children, 1); 9];
    for number in 1..records.len() {
        records[number] = record_of(Kind::And.number(), number - 1, 1, number + 1);
    }
    records
}

// Checks nested Ands, and says the refusal and whether the flat list is as it was.
fn refuse(stdout: Stdout, counts: Counts, records: [Record; 9], top: usize) {
    let side = [0usize, 1, 2, 3, 4, 5, 6, 7];
    let tops = [top];
    let range = [0usize; 2];
    let mut flat = [77usize; 80];
    say(
        stdout,
        b"refused ",
        number_of(check_nine(counts, records, &side, &tops, &range, &mut flat)),
    );
    say(stdout, b"  first cell ", flat[0]);
}

// Eight records that would pass, and a flat list that has one cell too few for them.
fn refuse_short(stdout: Stdout) {
    let side = [0usize, 1, 2, 3, 4, 5, 6, 7];
    let tops = [7usize];
    let range = [0usize; 2];
    let mut flat = [77usize; 63];
    let checked = check_nine(
        counts_of(8, 1),
        nested(Kind::And.number(), 0),
        &side,
        &tops,
        &range,
        &mut flat,
    );
    say(stdout, b"refused ", number_of(checked));
    say(stdout, b"  first cell ", flat[0]);
}

// Solves a checked problem of two terms, a and b, and says their sorts.
fn say_solved(stdout: Stdout, problem: Problem) {
    let mut work = [0; 72];
    let mut sort_list = [9; 3];
    let mut errors = [9; 16];
    let outcome = solve(problem, &mut work, &mut sort_list, &mut errors);
    say(stdout, b"answered ", outcome.number);
    say(stdout, b"  passes ", outcome.passes);
    say(stdout, b"  sort of a ", sort_list[0]);
    say(stdout, b"  sort of b ", sort_list[1]);
    say(stdout, b"  past the terms ", sort_list[2]);
}

// Eq(a, b), Assign(a, S): both are S after three passes.
fn solve_checked(stdout: Stdout) {
    let mut records = [record_of(NO_KIND, 0, 0, 0); 9];
    records[0] = record_of(Kind::Eq.number(), 0, 1, 5);
    records[1] = record_of(Kind::Assign.number(), 0, 0, 6);
    let counts = Counts {
        records: 2,
        side: 0,
        tops: 2,
        range: 1,
        terms: 2,
        sorts: 1,
    };
    let side = [0usize; 1];
    let tops = [0usize, 1];
    let range = [1usize, 7];
    let mut flat = [77usize; 24];
    say(
        stdout,
        b"checked ",
        number_of(check_nine(counts, records, &side, &tops, &range, &mut flat)),
    );
    say(stdout, b"  kind of the second ", flat[8]);
    say(stdout, b"  its place ", flat[14]);
    say(stdout, b"  past the counted ", flat[16]);
    let problem = Problem {
        counts,
        records: &flat,
        side: &side,
        tops: &tops,
        range: &range,
    };
    say_solved(stdout, problem);
}

// The kind and the place of a record in a list of structs.
fn read(stdout: Stdout, number: usize) {
    say(
        stdout,
        b"kind ",
        kind_in_nine(nested(Kind::Eq.number(), 0), number),
    );
    say(
        stdout,
        b"  place ",
        place_in_nine(nested(Kind::Eq.number(), 0), number),
    );
}

// A fresh term at a count, and the count after it.
fn take(stdout: Stdout, count: usize) {
    let fresh = fresh_after(count);
    say(stdout, b"fresh ", fresh.taken);
    say(stdout, b"  then ", fresh.left.next);
}

fn main(rt: HostRuntime) {
    let stdout = rt.stdout();
    solve_checked(stdout);
    refuse(stdout, counts_of(10, 1), nested(NO_KIND, 1), 8);
    refuse(stdout, counts_of(9, 1), nested(NO_KIND, 1), 8);
    refuse(stdout, counts_of(9, 1), nested(Kind::And.number(), 1), 8);
    refuse(stdout, counts_of(9, 1), nested(Kind::And.number(), 0), 8);
    refuse(stdout, counts_of(8, 1), nested(Kind::And.number(), 0), 7);
    refuse_short(stdout);
    read(stdout, 0);
    read(stdout, 8);
    read(stdout, 9);
    take(stdout, 41);
    take(stdout, usize::MAX);
}
