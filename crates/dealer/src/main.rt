// The program: M, R and a seed number as arguments, the practice file on standard output. A wrong argument gets one
// line on standard error, and no file.
#![tactic(auto)]

use definitions::{NotDealt, Refusal};
use std::env::{Env, FillError};

// The bytes of the largest file, of 64 states.
const LARGEST: usize = 16_397;

// The bytes of a buffer for an argument.
const LONGEST: usize = 4096;

const NOT_WHOLE: &str = "the file cannot be written whole";

// That the line cannot be written is not told anywhere. The calculator has its own: it is one line.
fn say(rt: HostRuntime, line: &str) {
    let _ = eprintln!(rt; "practice: {line}");
}

// What is wrong where no file is dealt. That there is too little room cannot be: the buffer has room for every file.
fn reason(why: NotDealt) -> &'static str {
    match why {
        NotDealt::Refused(Refusal::States) => {
            "M, the number of states, is to be a whole number from 1 to 64"
        }
        NotDealt::Refused(Refusal::HighestMoment) => {
            "R, the highest moment, is to be a whole number from 1 to 8"
        }
        NotDealt::Refused(_) => NOT_WHOLE,
        NotDealt::NoSeed => "the seed number is to be a whole number from 0 to 4294967295",
    }
}

fn write_file(rt: HostRuntime, file: &[u8]) {
    if rt.stdout().write_all(file).is_err() {
        say(rt, NOT_WHOLE);
    }
}

// Deals the file of three texts.
fn answer(rt: HostRuntime, states: &[u8], highest: &[u8], seed: &[u8]) {
    let mut file = [0u8; LARGEST];
    match deal::deal(states, highest, seed, &mut file) {
        Ok(length) => write_file(rt, &file[..length]),
        Err(why) => say(rt, reason(why)),
    }
}

// The argument of a number. One that is longer than the buffer is an empty text, which says no number.
fn argument(rt: HostRuntime, number: usize, buffer: &mut [u8]) -> &[u8] {
    let length = rt.arg(number, buffer).unwrap_or(0);
    &buffer[..length]
}

// The texts are the arguments.
fn answer_arguments(rt: HostRuntime) {
    let mut states = [0u8; LONGEST];
    let mut highest = [0u8; LONGEST];
    let mut seed = [0u8; LONGEST];
    answer(
        rt,
        argument(rt, 1, &mut states),
        argument(rt, 2, &mut highest),
        argument(rt, 3, &mut seed),
    );
}

// Whether the program has an argument of this number, also where it is longer than a buffer. Number 0 is its name.
fn has_argument(rt: HostRuntime, number: usize) -> bool {
    let mut text = [0u8; LONGEST];
    !matches!(rt.arg(number, &mut text), Err(FillError::NotPresent))
}

fn main(rt: HostRuntime) {
    if has_argument(rt, 3) && !has_argument(rt, 4) {
        answer_arguments(rt);
    } else {
        say(
            rt,
            "give M, R and a seed number, as in ./practice 3 2 1234 > FILE",
        );
    }
}
