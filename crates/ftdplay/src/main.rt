// Plays the script of standard input: each line is a call of an end on real bytes, and prints its answer. What a line
// says and prints is the crate play's: here is only reading and writing.
#![tactic(auto)]

use play::input::take_line;
use play::player::Player;
use std::io;
use streams::read_full;

// The player behind some lines, and how many bytes of the next one are there.
#[derive(Clone, Copy)]
struct Reached {
    player: Player,
    have: usize,
}

// A line of the script, and what playing it writes to.
#[derive(Drop)]
struct Buffers {
    line: [u8; 140000],
    log: [u8; 1048576],
    chain: [u8; 262144],
    bytes: [u8; 140000],
    out: [u8; 65536],
    text: [u8; 1048576],
}

// Plays the line, of so many bytes, and prints its answer.
fn print_line(rt: &impl Print, now: Reached, b: &mut Buffers) -> io::Result<Reached> {
    let played = now.player.play(
        &b.line,
        now.have,
        &mut b.log,
        &mut b.chain,
        &mut b.bytes,
        &mut b.out,
        &mut b.text,
    );
    rt.write_all(&b.text[..played.len])?;
    Ok(Reached {
        player: played.player,
        have: 0,
    })
}

// Plays the lines that end in a piece of the input.
fn print_piece(
    rt: &impl Print,
    from: Reached,
    input: &[u8],
    b: &mut Buffers,
) -> io::Result<Reached> {
    let mut now = from;
    let mut at: usize = 0;
    while at < input.len() {
        let t = take_line(input, at, &mut b.line, now.have);
        at = t.at;
        now.have = t.have;
        if t.whole {
            now = print_line(rt, now, b)?;
        }
    }
    Ok(now)
}

fn main(rt: HostRuntime) -> io::Result<()> {
    let mut stdin = rt.reader();
    let mut input = [0u8; 65536];
    let mut buffers = Buffers {
        line: [0; 140000],
        log: [0; 1048576],
        chain: [0; 262144],
        bytes: [0; 140000],
        out: [0; 65536],
        text: [0; 1048576],
    };
    let mut now = Reached {
        player: Player::fresh(),
        have: 0,
    };
    for _ in 0..4294967295u32 {
        let n = read_full(&mut stdin, &mut input)?;
        if n == 0 {
            break;
        }
        now = print_piece(&rt, now, &input[..n], &mut buffers)?;
    }
    if now.have > 0 {
        print_line(&rt, now, &mut buffers)?;
    }
    Ok(())
}
