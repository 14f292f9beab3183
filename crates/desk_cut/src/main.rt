// The worksheet in words: a journal of calls run, a call said on a journal that four desks share,
// and an audit of where a sheet comes from. Its src/ is copied to the crates desk_run, desk_audit,
// desk_pair and desk_cut, as the gate runs a crate once and refuses links.
#![tactic(auto)]

use office::audit::audit;
use office::run::run;
use office::say::say;
use office::standard::fill_standard;
use office::usage::usage;
use std::rt::Env;
use system::{arg, arg_count, is_arg};
use wording::token::{Token, token_at, tokens_in};

// The most bytes of an argument that is looked at.
const ARGUMENT: usize = 4096;

// Whether this is neither a word that calls are written with nor a number.
fn is_foreign(word: Token) -> bool {
    matches!(word, Token::End | Token::Other)
}

// Whether argument 4 is the second of a pair of files: it is no word of a call, and a call is left
// behind it. A call that begins with a wrong word is then told as such, and not as a file.
fn is_pair(env: &impl Env) -> bool {
    let mut text = [0u8; ARGUMENT];
    let n = arg(env, 4, &mut text);
    arg_count(env) >= 6 && is_foreign(token_at(tokens_in(&text[..n]), 0))
}

fn main(rt: HostRuntime) {
    fill_standard(&rt);
    let count = arg_count(&rt);
    if is_arg(&rt, 1, b"run") && (count == 4 || count == 5) {
        run(&rt, count == 5);
    } else if is_arg(&rt, 1, b"say") && count >= 5 {
        say(&rt, rt.process(), is_pair(&rt));
    } else if is_arg(&rt, 1, b"audit") && (count == 5 || count == 6) {
        audit(&rt, count == 6);
    } else {
        usage();
    }
}
