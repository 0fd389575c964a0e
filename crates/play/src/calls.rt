// What a script's line says: a call, with its numbers. The words that say bytes stay in the line.
ghost use Rattle.std.specs.Prelude.{◌≡◌, ◌≤◌};
ghost use Rattle.play.specs.Calls.{time_with, calendar_with, mark_with};
ghost use Rattle.play.specs.Calls.{take_with, level_with};
ghost use Rattle.play.specs.Calls.{verb_of, buffers_with, open_day_with, publish_with, login_call_with, send_with};
ghost use Rattle.play.specs.Calls.{open_end_with, ask_with, answer_with, plain_call, named_call, number_at, call_of};

use crate::words::{
    argument, has_form, has_name, is_word, number_count, read_number, read_tid, share_count,
    word_end,
};
use book::levels::Level;

// The first word of a line.
#[derive(Clone, Copy)]
enum Verb {
    Unknown,
    Buffers,
    OpenDay,
    Publish,
    Login,
    Send,
    OpenEnd,
    Connect,
    Ask,
    Answer,
    Receive,
    State,
    Calendar,
    Mark,
    Book,
    Take,
    Level,
    Mean,
    ReceiveAll,
    PublishAll,
    SendPacket,
    Keep,
    Return,
}

// A call, with the numbers that its line says.
#[derive(Clone, Copy)]
pub enum Call {
    // No call.
    Bad,
    // The lengths of log and chain buffer.
    Buffers {
        log: usize,
        chain: usize,
    },
    // Opening of the serving end, with so many series and their reserves.
    OpenDay {
        date: u32,
        count: usize,
    },
    Publish {
        series: u16,
        tid: u32,
    },
    // An output of so many bytes.
    Login {
        series: u16,
        room: usize,
    },
    // Of a whole message, or of one packet.
    Send {
        series: u16,
        room: usize,
        single: bool,
    },
    // Opening of the receiving end.
    OpenEnd {
        count: usize,
    },
    Connect,
    Ask {
        series: u16,
        room: usize,
    },
    Answer {
        series: u16,
    },
    Receive,
    // Both ends, for people.
    State,
    // So many sessions, and so many holidays.
    SetCalendar {
        sessions: usize,
        holidays: usize,
    },
    AskTime {
        seconds: u32,
    },
    MarkDate {
        mark: u32,
    },
    StartBook,
    TakeMessage {
        tid: u32,
    },
    // A side, and a place on it.
    ShowLevel {
        buying: bool,
        place: usize,
    },
    ShowMean,
    // Several packets, several records.
    ReceiveAll,
    PublishAll,
    // Of a named place (02, No. 13).
    Keep,
    Return,
}

// The words that name calls: of the serving end, of the receiving end, of the calendar, for several packets or records
// and of named places, of the book.
const VERBS: [(&[u8], Verb); 22] = [
    (b"buffers", Verb::Buffers),
    (b"sopen", Verb::OpenDay),
    (b"publish", Verb::Publish),
    (b"login", Verb::Login),
    (b"send", Verb::Send),
    (b"sendpacket", Verb::SendPacket),
    (b"ropen", Verb::OpenEnd),
    (b"connect", Verb::Connect),
    (b"ask", Verb::Ask),
    (b"answer", Verb::Answer),
    (b"receive", Verb::Receive),
    (b"state", Verb::State),
    (b"calendar", Verb::Calendar),
    (b"mark", Verb::Mark),
    (b"receiveall", Verb::ReceiveAll),
    (b"publishall", Verb::PublishAll),
    (b"keep", Verb::Keep),
    (b"return", Verb::Return),
    (b"book", Verb::Book),
    (b"take", Verb::Take),
    (b"level", Verb::Level),
    (b"mean", Verb::Mean),
];

// Which call a line's first word names.
fn verb_of(word: &[u8]) -> Verb
    ensures { result ≡ verb_of word.now }
{
    for (name, verb) in &VERBS {
        if is_word(word, name) {
            return *verb;
        }
    }
    Verb::Unknown
}

// Lengths within the limits.
fn buffers_with(right: bool, log: u64, chain: u64) -> Call
    ensures { result ≡ buffers_with right log chain }
{
    if right && log <= 1048576 && chain <= 262144 {
        return Call::Buffers {
            log: log as usize,
            chain: chain as usize,
        };
    }
    Call::Bad
}

// A date within four bytes, and so many series with their reserves.
fn open_day_with(date: u64, count: usize) -> Call
    ensures { result ≡ open_day_with date count }
{
    if date > 4294967295 || count > 64 {
        return Call::Bad;
    }
    Call::OpenDay {
        date: date as u32,
        count,
    }
}

// Numbers within their widths.
fn publish_with(right: bool, series: u64, tid: u64) -> Call
    ensures { result ≡ publish_with right series tid }
{
    if right && series <= 65535 && tid <= 4294967295 {
        return Call::Publish {
            series: series as u16,
            tid: tid as u32,
        };
    }
    Call::Bad
}

// Stays: three functions, here, `send_with` and `ask_with`, with a definition each. What they share is one condition;
// one function over what makes the call would have to say what that answers, or to part an answer once more.
// Numbers within their width and limit.
fn login_with(right: bool, series: u64, room: u64) -> Call
    ensures { result ≡ login_call_with right series room }
{
    if right && series <= 65535 && room <= 65536 {
        return Call::Login {
            series: series as u16,
            room: room as usize,
        };
    }
    Call::Bad
}

// Numbers within their width and limit.
fn send_with(right: bool, series: u64, room: u64, single: bool) -> Call
    ensures { result ≡ send_with right series room single }
{
    if right && series <= 65535 && room <= 65536 {
        return Call::Send {
            series: series as u16,
            room: room as usize,
            single,
        };
    }
    Call::Bad
}

// So many series.
fn open_end_with(count: usize) -> Call
    ensures { result ≡ open_end_with count }
{
    if count > 64 {
        return Call::Bad;
    }
    Call::OpenEnd { count }
}

// Numbers within their width and limit.
fn ask_with(right: bool, series: u64, room: u64) -> Call
    ensures { result ≡ ask_with right series room }
{
    if right && series <= 65535 && room <= 65536 {
        return Call::Ask {
            series: series as u16,
            room: room as usize,
        };
    }
    Call::Bad
}

// A series within its width.
fn answer_with(right: bool, series: u64) -> Call
    ensures { result ≡ answer_with right series }
{
    if right && series <= 65535 {
        return Call::Answer {
            series: series as u16,
        };
    }
    Call::Bad
}

// Seconds alone in their line, within their width; a line of another form is another call.
fn time_with(alone: bool, seconds: u64, other: Call) -> Call
    ensures { result ≡ time_with alone seconds other }
{
    if alone {
        if seconds > 4294967295 {
            return Call::Bad;
        }
        return Call::AskTime {
            seconds: seconds as u32,
        };
    }
    other
}

// So many sessions of three numbers each; the numbers left are holidays.
fn calendar_with(sessions: u64, count: usize) -> Call
    ensures { result ≡ calendar_with sessions count }
{
    if sessions > 16 || count > 112 {
        return Call::Bad;
    }
    let n = sessions as usize;
    if count < 3 * n || count - 3 * n > 64 {
        return Call::Bad;
    }
    Call::SetCalendar {
        sessions: n,
        holidays: count - 3 * n,
    }
}

// A mark within its width.
fn mark_with(right: bool, mark: u64) -> Call
    ensures { result ≡ mark_with right mark }
{
    if right && mark <= 4294967295 {
        return Call::MarkDate { mark: mark as u32 };
    }
    Call::Bad
}

// A TID within its width.
fn take_with(right: bool, tid: u64) -> Call
    ensures { result ≡ take_with right tid }
{
    if right && tid <= 4294967295 {
        return Call::TakeMessage { tid: tid as u32 };
    }
    Call::Bad
}

// A side, and a place within its width.
fn level_with(right: bool, buying: bool, selling: bool, place: u64) -> Call
    ensures { result ≡ level_with right buying selling place }
{
    if right && place <= 4294967295 && (buying || selling) {
        return Call::ShowLevel {
            buying,
            place: place as usize,
        };
    }
    Call::Bad
}

// A call without numbers.
fn plain_call(right: bool, call: Call) -> Call
    ensures { result ≡ plain_call right call }
{
    if right {
        return call;
    }
    Call::Bad
}

// Number i of a line.
fn number_at(line: &[u8], i: usize) -> u64
    ensures { result ≡ number_at line.now i }
{
    read_number(argument(line, i), 10)
}

// The call that a line with a verb says.
fn named_call(line: &[u8], verb: Verb) -> Call
    ensures { result ≡ named_call line.now verb }
{
    match verb {
        Verb::Unknown => Call::Bad,
        Verb::Buffers => {
            buffers_with(has_form(line, 2, 0), number_at(line, 0), number_at(line, 1))
        }
        Verb::OpenDay => open_day_with(number_at(line, 0), share_count(line, 1)),
        Verb::Publish => publish_with(
            has_form(line, 2, 1),
            number_at(line, 0),
            read_tid(argument(line, 1)),
        ),
        Verb::Login => login_with(has_form(line, 2, 2), number_at(line, 0), number_at(line, 1)),
        Verb::Send => send_with(
            has_form(line, 2, 0),
            number_at(line, 0),
            number_at(line, 1),
            false,
        ),
        Verb::OpenEnd => open_end_with(number_count(line, 0, 65535, 64)),
        Verb::Connect => plain_call(has_form(line, 0, 0), Call::Connect),
        Verb::Ask => time_with(
            has_form(line, 1, 0),
            number_at(line, 0),
            ask_with(has_form(line, 2, 1), number_at(line, 0), number_at(line, 1)),
        ),
        Verb::Answer => answer_with(has_form(line, 1, 1), number_at(line, 0)),
        Verb::Receive => plain_call(has_form(line, 0, 1), Call::Receive),
        Verb::State => plain_call(has_form(line, 0, 0), Call::State),
        Verb::Calendar => calendar_with(number_at(line, 0), number_count(line, 1, 4294967295, 112)),
        Verb::Mark => mark_with(has_form(line, 1, 0), number_at(line, 0)),
        Verb::Book => plain_call(has_form(line, 0, 1), Call::StartBook),
        Verb::Take => take_with(has_form(line, 1, 1), read_tid(argument(line, 0))),
        Verb::Level => level_with(
            has_form(line, 2, 0),
            is_word(argument(line, 0), b"b"),
            is_word(argument(line, 0), b"s"),
            number_at(line, 1),
        ),
        Verb::Mean => plain_call(has_form(line, 0, 0), Call::ShowMean),
        Verb::ReceiveAll => plain_call(has_form(line, 0, 1), Call::ReceiveAll),
        Verb::PublishAll => plain_call(has_form(line, 0, 1), Call::PublishAll),
        Verb::SendPacket => send_with(
            has_form(line, 2, 0),
            number_at(line, 0),
            number_at(line, 1),
            true,
        ),
        Verb::Keep => plain_call(has_name(line), Call::Keep),
        Verb::Return => plain_call(has_name(line), Call::Return),
    }
}

// The call that a line says.
pub fn call_of(line: &[u8]) -> Call
    ensures { result ≡ call_of line.now }
{
    let e = word_end(line, 0);
    named_call(line, verb_of(&line[..e]))
}
