// The player of a script: a line is a call of an end, of the calendar or of the book, and its answer is printed as a line.
ghost use Rattle.std.specs.Prelude.{◌≡◌, ◌≤◌, true, false, length, replicate};
ghost use Rattle.play.specs.Played.{fresh_player, with_sender, with_receiver, with_checkpoints};
ghost use Rattle.play.specs.Played.{with_calendar, with_book};
ghost use Rattle.play.specs.Played.{counted_player, bad_line, Shows, Plays};
ghost use Rattle.play.specs.Played.{layout_turn, start_turn, ready_turn, call_turn, lacks_room, play_turn, Fits};

use crate::calls::{Call, call_of};
use crate::keeping::{play_keep, play_return};
use crate::quoting::{play_book, play_take, show_level, show_mean};
use crate::receiving::{connect, play_answer, play_ask, play_open_end, play_receive, show_state};
use crate::serving::{play_login, play_open_day, play_publish, play_send};
use crate::several::{play_publish_all, play_receive_all};
use crate::text::{number_line, word_line};
use crate::trading::{ask_time, play_calendar, show_date};
use book::calls::Book;
use calendar::trading::Calendar;
use flow::checkpoint::Checkpoints;
use flow::receiver::Receiver;
use flow::sender::Sender;

// The player: how many lines it was given, whether the buffers are laid out, their lengths, the two ends, the named
// places of the receiving end, the calendar and the book.
#[derive(Clone, Copy)]
pub struct Player {
    pub lines: usize,
    pub ready: bool,
    pub log: usize,
    pub chain: usize,
    pub sender: Sender,
    pub receiver: Receiver,
    pub checkpoints: Checkpoints,
    pub calendar: Calendar,
    pub book: Book,
}

// What a line leaves: the player, and the length of the text that is printed.
#[derive(Clone, Copy)]
pub struct Played {
    pub player: Player,
    pub len: usize,
}

// All zero.
pub(crate) fn clear(out: &mut [u8])
    ensures { out.new ≡ replicate (length out.old) 0 }
{
    out.fill(0);
}

impl Player {
    // It has been given no line.
    pub fn fresh() -> Player
        ensures { result ≡ fresh_player }
    {
        Player {
            lines: 0,
            ready: false,
            log: 0,
            chain: 0,
            sender: Sender::fresh(),
            receiver: Receiver::fresh(),
            checkpoints: Checkpoints::fresh(),
            calendar: Calendar::fresh(),
            book: Book::fresh(),
        }
    }

    // The serving end is another.
    pub(crate) fn with_sender(self, sender: Sender) -> Player
        ensures { result ≡ with_sender self sender }
    {
        Player { sender, ..self }
    }

    // The receiving end is another.
    pub(crate) fn with_receiver(self, receiver: Receiver) -> Player
        ensures { result ≡ with_receiver self receiver }
    {
        Player { receiver, ..self }
    }

    // The named places are others.
    pub(crate) fn with_checkpoints(self, checkpoints: Checkpoints) -> Player
        ensures { result ≡ with_checkpoints self checkpoints }
    {
        Player {
            checkpoints,
            ..self
        }
    }

    // The calendar is another.
    pub(crate) fn with_calendar(self, calendar: Calendar) -> Player
        ensures { result ≡ with_calendar self calendar }
    {
        Player { calendar, ..self }
    }

    // The book is another.
    pub(crate) fn with_book(self, book: Book) -> Player
        ensures { result ≡ with_book self book }
    {
        Player { book, ..self }
    }

    // A line more.
    fn counted(self) -> Player
        ensures { result ≡ counted_player self }
    {
        if self.lines < 4294967295 {
            return Player {
                lines: self.lines + 1,
                ..self
            };
        }
        self
    }

    // The line is no call: nothing changes.
    fn bad_line(self, text: &mut [u8]) -> Played
        requires { 64 ≤ length text.old }
        ensures { Shows self (bad_line self.lines) result text.old text.new }
    {
        Played {
            player: self,
            len: number_line(text, b"bad line", self.lines),
        }
    }

    // The buffers are laid out, all zero.
    fn play_buffers(
        self,
        size: usize,
        part: usize,
        log: &mut [u8],
        chain: &mut [u8],
        text: &mut [u8],
    ) -> Played
        requires { 64 ≤ length text.old }
        ensures { Plays (layout_turn self size part log.old chain.old) result text.old
            text.new log.new chain.new }
    {
        if log.len() < size || chain.len() < part {
            return self.bad_line(text);
        }
        clear(&mut log[..size]);
        clear(&mut chain[..part]);
        Played {
            player: Player {
                ready: true,
                log: size,
                chain: part,
                ..self
            },
            len: word_line(text, b"ok"),
        }
    }

    // A call before the buffers are laid out.
    fn play_start(self, call: Call, log: &mut [u8], chain: &mut [u8], text: &mut [u8]) -> Played
        requires { 64 ≤ length text.old }
        ensures { Plays (start_turn self log.old chain.old call) result text.old
            text.new log.new chain.new }
    {
        // Stays: a match on the call, as `start_turn` and `ready_turn` of specs/ have it; a table would need dyn.
        match call {
            Call::Buffers {
                log: size,
                chain: part,
            } => self.play_buffers(size, part, log, chain, text),
            _ => self.bad_line(text),
        }
    }

    // A call in buffers that are laid out.
    fn play_ready(
        self,
        call: Call,
        line: &[u8],
        log: &mut [u8],
        chain: &mut [u8],
        bytes: &mut [u8],
        out: &mut [u8],
        text: &mut [u8],
    ) -> Played
        requires { Fits self call (length line.now) (length log.old) (length chain.old) (length bytes.old)
            (length out.old) (length text.old) }
        ensures { Plays (ready_turn self line.now log.old chain.old call) result
            text.old text.new log.new chain.new }
    {
        match call {
            Call::Bad => self.bad_line(text),
            Call::Buffers { .. } => self.bad_line(text),
            Call::OpenDay { date, count } => play_open_day(self, date, count, line, log, text),
            Call::Publish { series, tid } => {
                play_publish(self, series, tid, line, log, bytes, text)
            }
            Call::Login { series, room } => play_login(self, series, room, line, bytes, out, text),
            Call::Send {
                series,
                room,
                single,
            } => play_send(self, series, room, single, log, out, text),
            Call::OpenEnd { count } => play_open_end(self, count, line, text),
            Call::Connect => connect(self, text),
            Call::Ask { series, room } => play_ask(self, series, room, line, bytes, out, text),
            Call::Answer { series } => play_answer(self, series, line, bytes, text),
            Call::Receive => play_receive(self, line, chain, bytes, text),
            Call::State => show_state(self, text),
            Call::SetCalendar { sessions, holidays } => {
                play_calendar(self, sessions, holidays, line, text)
            }
            Call::AskTime { seconds } => ask_time(self, seconds, text),
            Call::MarkDate { mark } => show_date(self, mark, text),
            Call::StartBook => play_book(self, line, bytes, text),
            Call::TakeMessage { tid } => play_take(self, tid, line, bytes, text),
            Call::ShowLevel { buying, place } => show_level(self, buying, place, text),
            Call::ShowMean => show_mean(self, text),
            Call::ReceiveAll => play_receive_all(self, line, chain, bytes, text),
            Call::PublishAll => play_publish_all(self, line, log, bytes, text),
            Call::Keep => play_keep(self, line, text),
            Call::Return => play_return(self, line, text),
        }
    }

    // The call of a line, in buffers that are large enough.
    fn play_call(
        self,
        call: Call,
        line: &[u8],
        log: &mut [u8],
        chain: &mut [u8],
        bytes: &mut [u8],
        out: &mut [u8],
        text: &mut [u8],
    ) -> Played
        requires { Fits self call (length line.now) (length log.old) (length chain.old) (length bytes.old)
            (length out.old) (length text.old) }
        ensures { Plays (call_turn self line.now log.old chain.old call) result
            text.old text.new log.new chain.new }
    {
        if self.ready {
            return self.play_ready(call, line, log, chain, bytes, out, text);
        }
        self.play_start(call, log, chain, text)
    }

    // A buffer is too small for what a line of so many bytes may need.
    fn lacks_room(
        self,
        line: usize,
        log: usize,
        chain: usize,
        bytes: usize,
        out: usize,
        text: usize,
    ) -> bool
        ensures { result ≡ lacks_room self line log chain bytes out text }
    {
        text < 524448
            || out < 65536
            || bytes < line
            || (text - 524448) / 7 < line / 2
            || 262144 < self.chain
            || log < self.log
            || chain < self.chain
    }

    // Plays the line that the first `len` bytes of a buffer are: the call is made, and what it prints is written to the
    // start of the text. A line longer than the buffer is no call. Where a buffer is too small for what a line may
    // need, nothing is done and nothing written.
    pub fn play(
        self,
        line: &[u8],
        len: usize,
        log: &mut [u8],
        chain: &mut [u8],
        bytes: &mut [u8],
        out: &mut [u8],
        text: &mut [u8],
    ) -> Played
        ensures { Plays (play_turn self line.now len log.old chain.old
            (length bytes.old) (length out.old) (length text.old)) result
            text.old text.new log.new chain.new }
    {
        if self.lacks_room(
            line.len(),
            log.len(),
            chain.len(),
            bytes.len(),
            out.len(),
            text.len(),
        ) {
            return Played {
                player: self,
                len: 0,
            };
        }
        let next = self.counted();
        if line.len() < len {
            return next.bad_line(text);
        }
        let said = &line[..len];
        next.play_call(call_of(said), said, log, chain, bytes, out, text)
    }
}
