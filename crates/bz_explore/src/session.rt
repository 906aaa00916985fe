//! A session: a net that is played line by line.

use crate::answer::Answer;
use crate::commands::{Call, call_of, words_of};
use crate::explored::{Files, NoFile};
use crate::feeding::{drain, feed};
use crate::hosts::{StandBy, forget, put_hosts};
use crate::looking::look;
use crate::passing::{expect_passed, tell_passed};
use crate::picking::{Picked, cmd_of, move_picked, picked_at, put_numbered, word_picked};
use crate::redoing::Redo;
use crate::refusals::{put_refusal, put_stuck};
use crate::running::{Goal, RanTo, run_up_to, things_asked};
use crate::saving::{
    MOST_COMPS, beginning_of, put_redone, put_script, put_trace_page, put_undone, save,
};
use crate::table::{Command, Form, put_help};
use crate::telling::{put_again, put_fired, put_played, put_said, put_stop};
use crate::things::place_asked;
use bz_explore_net::{HostOffer, Stepping};
use bz_model::{Cmd, HostCmd, NetError, Reply, wide_count_of};
use bz_net::RunEnd;
use bz_page::TooLarge;
use bz_source::Survey;
use bz_text::Text;
use bz_view::{Piece, Seen, count_lines, gathered};
use std::io::Write;
use std::mem;

const NO_REPLY: &str = "there is no reply to compare: the last command was none of the host's\n";

const NOT_LISTED: &str =
    "a number is that of a line of `moves`, as long as nothing has moved since\n";

const FULL: &str = "N7 JournalFull: the trace holds % lines; `undo` makes room\n";

/// A net that is played line by line.
#[derive(Drop)]
pub(crate) struct Session<'s> {
    pub stepping: &'s mut Stepping,
    pub survey: &'s Survey,
    /// The name of the part whose net it is.
    pub part: &'s [u8],
    /// The words of the line, with a blank between.
    pub typed: Vec<u8>,
    pub answer: Answer,
    /// The hosts that stand by, in the order of their ports.
    pub hosts: Vec<StandBy>,
    /// What the host was told last, where nothing was played since.
    pub reply: Option<Reply>,
    /// How many of the last commands are undone. The net goes back only where it is looked at again.
    pub undone: usize,
    pub redo: Redo,
    /// What a hand at a terminal is shown besides.
    pub hand: Hand,
}

/// What a hand at a terminal is shown besides.
#[derive(Clone, Copy)]
pub(crate) struct Hand {
    /// Whether `moves` numbers its lines, so that a number can be typed.
    pub is_numbered: bool,
    /// Whether each move that is played has its words behind it.
    pub is_worded: bool,
    /// Whether the lines of `moves` are those of the net as it is.
    pub is_listed: bool,
}

impl<'s> Session<'s> {
    /// Follows a line, so that its answer is told; whether the session goes on.
    pub fn follows<F: Files>(&mut self, files: &mut F, line: &[u8]) -> bool {
        self.answer.begin();
        match str::from_utf8(line) {
            Ok(line) => self.follows_words(files, line),
            Err(_) => {
                self.answer.no_command("", line.trim_ascii());
                true
            }
        }
    }

    fn follows_words<F: Files>(&mut self, files: &mut F, line: &str) -> bool {
        let alloc = self.answer.text.alloc();
        let words = gathered(words_of(alloc, line), &mut self.answer.text);
        let typed = words.as_slice().join(alloc, " ").map(String::into_bytes);
        self.typed = gathered(typed, &mut self.answer.text);
        let first = wide_count_of(words.first().copied().unwrap_or(""));
        if let (true, Some(number)) = (self.hand.is_numbered, first) {
            self.pick(number, words.get(1).copied());
            return true;
        }
        match call_of(words.as_slice(), self.typed.as_slice(), &mut self.answer) {
            Some(call) => self.follow(files, call),
            None => true,
        }
    }

    // Makes what has this number among the lines of `moves`, which are those of the net as it is; a value may stand behind it.
    fn pick(&mut self, number: u64, given: Option<&str>) {
        if !self.hand.is_listed {
            self.answer.complain(NOT_LISTED, &[]);
            return;
        }
        match picked_at(self.answer.text.alloc(), self.stepping.net().core(), number) {
            Ok(Some(Picked::Move(_))) if given.is_some() => {
                let given = Piece::Shown(given.unwrap_or("").as_bytes());
                self.answer
                    .complain("`%` is too much: a move has its value\n", &[given]);
            }
            Ok(Some(Picked::Move(offer))) => {
                self.typed = move_picked(offer, &mut self.answer.text);
                self.fire_at(offer.comp, Some(offer.port));
            }
            Ok(Some(Picked::Word(offer))) => self.pick_word(offer, given),
            Ok(None) => self
                .answer
                .complain("`moves` has no line %\n", &[Piece::Wide(number.into())]),
            Err(_) => self.answer.text.lose(),
        }
    }

    fn pick_word(&mut self, offer: HostOffer, given: Option<&str>) {
        let seen = Seen::of(self.stepping.net().core(), self.survey);
        self.typed = word_picked(seen, offer, given, &mut self.answer.text);
        match cmd_of(self.answer.text.alloc(), self.typed.as_slice()) {
            Ok(Some(Cmd::Host(cmd))) => self.host(&cmd),
            Ok(_) => {
                let given = Piece::Shown(given.unwrap_or("").as_bytes());
                self.answer.complain("`%` is no value\n", &[given]);
            }
            Err(_) => self.answer.text.lose(),
        }
    }

    // Adds the moves behind their numbers, by which they can be made as long as nothing else has moved.
    fn list_moves(&mut self, call: Call<'_>) {
        let mut lines = Text::new(self.answer.text.alloc());
        mem::swap(&mut self.answer.text, &mut lines);
        look(&*self.stepping, self.survey, call, &mut self.answer);
        mem::swap(&mut self.answer.text, &mut lines);
        put_numbered(&lines, &mut self.answer.text);
        self.hand.is_listed = true;
    }

    // Does what a line asks for; whether the session goes on.
    fn follow<F: Files>(&mut self, files: &mut F, call: Call<'_>) -> bool {
        match call.form.command {
            Command::Help => self.help(call.first),
            Command::Undo => self.undo(call.number().unwrap_or(1)),
            Command::Redo => self.redo(),
            Command::Quit => return false,
            command => {
                self.go_back();
                self.do_now(files, command, call);
            }
        }
        true
    }

    // Does what is asked of the net as it is once all that is undone has been taken back.
    fn do_now<F: Files>(&mut self, files: &mut F, command: Command, call: Call<'_>) {
        match command {
            Command::Fire => self.fire(call),
            Command::Run | Command::RunTo => self.run(call),
            Command::Random => self.random(call.number().unwrap_or(0)),
            Command::Seed => self.seed(call.number().unwrap_or(0)),
            Command::Host => self.word(call),
            Command::Feed | Command::Drain | Command::Hosts => self.stand_by(command, call),
            Command::Passed => tell_passed(self.stepping.net(), call, &mut self.answer),
            Command::ExpectPassed => expect_passed(self.stepping.net(), call, &mut self.answer),
            Command::Expect => self.expect(),
            Command::Say => put_said(self.typed.as_slice(), &mut self.answer.text),
            Command::Names => self.word_moves(call),
            Command::Trace | Command::Session => self.write(files, call),
            Command::Page => self.page(files, call),
            Command::Moves if self.hand.is_numbered => self.list_moves(call),
            Command::Moves
            | Command::Waits
            | Command::WaitsAll
            | Command::WaitsSince
            | Command::State
            | Command::Values
            | Command::Counts
            | Command::CountsNever => {
                look(&*self.stepping, self.survey, call, &mut self.answer);
            }
            Command::Help | Command::Undo | Command::Redo | Command::Quit => {}
        }
    }

    // Takes back in the net what is undone: of several commands in a row it is played but once again.
    fn go_back(&mut self) {
        let (alloc, undone) = (self.answer.text.alloc(), self.undone);
        if undone > 0 {
            self.redo
                .keep(&*self.stepping, undone, &mut self.answer.text);
            if self.stepping.undo(alloc, undone).is_err() {
                self.answer.text.lose();
            }
        }
        self.undone = 0;
    }

    fn help(&mut self, word: Option<&str>) {
        match (word, Form::begun_by(word.unwrap_or(""))) {
            (Some(word), None) => self.answer.no_command(word, word.as_bytes()),
            (_, form) => put_help(form, &mut self.answer.text),
        }
    }

    // Follows a word of the host, if it is one.
    fn word(&mut self, call: Call<'_>) {
        let word = call.first.unwrap_or("");
        match bz_words::command(self.answer.text.alloc(), word) {
            Ok(Some(Cmd::Host(cmd))) => self.host(&cmd),
            Ok(_) => self.answer.misfit(call.form, word, "not of this form"),
            Err(_) => self.answer.text.lose(),
        }
    }

    fn host(&mut self, cmd: &HostCmd) {
        let before = self.entries();
        let (alloc, typed) = (self.answer.text.alloc(), self.typed.as_slice());
        match self.stepping.command(alloc, typed, cmd) {
            Ok(reply) => {
                forget(self.hosts.as_mut_slice(), before);
                self.played(before, Some(reply));
            }
            Err(error) => {
                if !self.is_spent(error) {
                    self.answer.begin_error();
                    let seen = Seen::of(self.stepping.net().core(), self.survey);
                    put_refusal(seen, error, cmd, &mut self.answer.text);
                }
            }
        }
    }

    fn fire(&mut self, call: Call<'_>) {
        let seen = Seen::of(self.stepping.net().core(), self.survey);
        match place_asked(seen, call, &mut self.answer) {
            Some((comp, port)) => self.fire_at(comp, port),
            None => {}
        }
    }

    fn fire_at(&mut self, comp: u32, port: Option<u32>) {
        let before = self.entries();
        let (alloc, typed) = (self.answer.text.alloc(), self.typed.as_slice());
        match self.stepping.fire(alloc, typed, comp, port) {
            Ok(()) => {
                forget(self.hosts.as_mut_slice(), before);
                self.played(before, None);
            }
            Err(error) => {
                if !self.is_spent(error) {
                    self.answer.begin_error();
                    let seen = Seen::of(self.stepping.net().core(), self.survey);
                    put_stuck(seen, comp, port, &mut self.answer.text);
                }
            }
        }
    }

    // Fires in turn: up to a number of times, or until something has moved, or to rest and on with hosts that stand by.
    fn run(&mut self, call: Call<'_>) {
        let things = match call.form.command {
            Command::RunTo => things_asked(self, call),
            _ => Vec::new(self.answer.text.alloc()),
        };
        let count = match call.form.command {
            Command::RunTo if things.is_empty() => return,
            Command::RunTo => call.second,
            _ => call.first,
        };
        let goal = Goal {
            things: things.as_slice(),
            most: wide_count_of(count.unwrap_or("")).unwrap_or(u64::MAX),
            is_endless: count.is_none(),
        };
        self.run_up_to(goal);
    }

    fn run_up_to(&mut self, goal: Goal<'_>) {
        let before = self.entries();
        let (fired, end) = run_up_to(
            &mut *self.stepping,
            self.hosts.as_mut_slice(),
            goal,
            self.typed.as_slice(),
            &mut self.answer,
        );
        self.played(before, None);
        match end {
            RanTo::End => {
                let seen = Seen::of(self.stepping.net().core(), self.survey);
                put_fired(seen, fired, &mut self.answer);
            }
            RanTo::Thing(thing) => {
                let seen = Seen::of(self.stepping.net().core(), self.survey);
                put_stop(seen, fired, thing, &mut self.answer);
            }
            RanTo::Again(entries) => {
                let (from, to) = (line_of(entries), line_of(self.entries()));
                let seen = Seen::of(self.stepping.net().core(), self.survey);
                put_again(seen, fired, from, to, &mut self.answer);
            }
            RanTo::Refused(error) => {
                self.is_spent(error);
            }
        }
    }

    // Fires up to `count` times by chance.
    fn random(&mut self, count: u64) {
        let before = self.entries();
        let (alloc, typed) = (self.answer.text.alloc(), self.typed.as_slice());
        let end = self.stepping.random(alloc, typed, count);
        if self.entries() > before {
            forget(self.hosts.as_mut_slice(), before);
        }
        self.played(before, None);
        match end {
            Ok(RunEnd::Rest(fired) | RunEnd::Spent(fired)) => {
                let seen = Seen::of(self.stepping.net().core(), self.survey);
                put_fired(seen, fired, &mut self.answer);
            }
            Ok(RunEnd::Refused(_, error)) => {
                self.is_spent(error);
            }
            Err(_) => self.answer.text.lose(),
        }
    }

    // Lets a host stand by at a port, or leave it, or tells of all that stand by.
    fn stand_by(&mut self, command: Command, call: Call<'_>) {
        let net = self.stepping.net();
        match command {
            Command::Feed => feed(net, &mut self.hosts, call, &mut self.answer),
            Command::Drain => drain(net, &mut self.hosts, call, &mut self.answer),
            _ => put_hosts(self.hosts.as_slice(), net.journal().len(), &mut self.answer),
        }
    }

    // Adds what was played behind the first `before` entries, of which the host was told this.
    fn played(&mut self, before: usize, reply: Option<Reply>) {
        self.reply = reply;
        if self.entries() > before {
            self.redo.forget();
            self.hand.is_listed = false;
        }
        let is_worded = self.hand.is_worded;
        put_played(
            &*self.stepping,
            self.survey,
            before,
            reply,
            is_worded,
            &mut self.answer,
        );
    }

    // Whether there is no memory for an entry, or no room in the journal, which is told.
    fn is_spent(&mut self, error: NetError) -> bool {
        match error {
            NetError::Memory => self.answer.text.lose(),
            NetError::JournalFull => {
                let limit = Piece::Wide(self.stepping.limit().into());
                self.answer.complain(FULL, &[limit]);
            }
            _ => return false,
        }
        true
    }

    fn seed(&mut self, seed: u64) {
        self.stepping.seed(seed);
        let seed = Piece::Wide(seed.into());
        self.answer.text.say("seed %\n", &[seed]);
    }

    // Takes back the last commands of those that aren't undone already.
    fn undo(&mut self, count: u64) {
        let left = self.stepping.marks().len().saturating_sub(self.undone);
        if count > left as u64 {
            let be = Piece::Text(if left == 1 { "is" } else { "are" });
            let left = Piece::Count(left, "command");
            self.answer.complain("there % % to undo\n", &[be, left]);
            return;
        }
        let count = count as usize;
        put_undone(&*self.stepping, left, count, &mut self.answer.text);
        self.undone = self.undone.saturating_add(count);
        self.redo.note(count, &mut self.answer.text);
        self.reply = None;
        self.hand.is_listed = false;
    }

    // Makes what the last `undo` took back again.
    fn redo(&mut self) {
        let Some(count) = self.redo.take_count() else {
            self.answer.complain("there is nothing to redo\n", &[]);
            return;
        };
        self.reply = None;
        self.hand.is_listed = false;
        if self.undone >= count {
            let left = self.stepping.marks().len().saturating_sub(self.undone);
            put_redone(&*self.stepping, left, count, &mut self.answer.text);
            self.undone -= count;
        } else {
            self.go_back();
            self.redo.make(&mut *self.stepping, count, &mut self.answer);
        }
    }

    // Says whether each move that is played has its words behind it.
    fn word_moves(&mut self, call: Call<'_>) {
        match call.first {
            Some("on") => self.hand.is_worded = true,
            Some("off") => self.hand.is_worded = false,
            word => self
                .answer
                .misfit(call.form, word.unwrap_or(""), "neither on nor off"),
        }
    }

    // Compares the reply with the one that is typed behind `expect`.
    fn expect(&mut self) {
        let Some(reply) = self.reply else {
            self.answer.complain(NO_REPLY, &[]);
            return;
        };
        let wanted = self.typed.get(b"expect ".len()..).unwrap_or(&[]);
        match format!(in self.answer.text.alloc(); "{reply}") {
            Ok(had) if had.as_bytes() == wanted => self.answer.agree(),
            Ok(had) => {
                self.answer.differ();
                let pieces = [Piece::Shown(wanted), Piece::Text(had.as_str())];
                self.answer
                    .text
                    .say("differs: expected %, had %\n", &pieces);
            }
            Err(_) => self.answer.text.lose(),
        }
    }

    fn page<F: Files>(&mut self, files: &mut F, call: Call<'_>) {
        let comps = self.stepping.flat().comp_count() as usize;
        if comps > MOST_COMPS {
            self.answer.begin_error();
            let _ = writeln!(self.answer.text, "{}", TooLarge { comps });
        } else {
            self.write(files, call);
        }
    }

    // Writes a file: the trace so far, a page on which it plays, or the commands that stand.
    fn write<F: Files>(&mut self, files: &mut F, call: Call<'_>) {
        let (command, net) = (call.form.command, self.stepping.net());
        let path = call.first.unwrap_or("");
        let mut made = Text::new(self.answer.text.alloc());
        match command {
            Command::Page => put_trace_page(&*self.stepping, self.survey, self.part, &mut made),
            Command::Session => put_script(&*self.stepping, &mut made),
            // (a text takes all that is written to it, and keeps that memory was refused)
            _ => {
                let _ = save(net, &mut made);
            }
        }
        let Ok(bytes) = made.whole() else {
            self.answer.text.lose();
            return;
        };
        let over = if call.over {
            Some(beginning_of(command))
        } else {
            None
        };
        let saved = files.put(path, bytes, over);
        let lines = match command {
            Command::Session => count_lines(bytes),
            _ => 1usize
                .saturating_add(net.journal().len())
                .saturating_add(net.clashes().len()),
        };
        self.saved(saved, call.form, path, lines);
    }

    // Tells that a file of so many lines was written, or why not.
    fn saved(&mut self, saved: Result<(), NoFile>, form: Form, path: &str, lines: usize) {
        let path = Piece::Shown(path.as_bytes());
        let told = match saved {
            Ok(()) => {
                let plays = Piece::Text(match form.command {
                    Command::Page => "a page that plays ",
                    _ => "",
                });
                let lines = Piece::Count(lines, "line");
                self.answer.text.say("wrote %: %%\n", &[path, plays, lines]);
                return;
            }
            Err(NoFile::Memory) => {
                self.answer.text.lose();
                return;
            }
            Err(NoFile::Exists) => "% exists; `%! %` writes over it\n",
            Err(NoFile::Netlist) => "% is the netlist: nothing is written over it\n",
            Err(NoFile::Other) => "% is no %: nothing is written over it\n",
            Err(NoFile::Barred) => "%: a session writes no such file; --files DIR allows it\n",
            Err(NoFile::Unwritable) => "% can't be written\n",
        };
        self.answer
            .complain(told, &[path, Piece::Text(form.word()), path]);
    }

    // How many entries the journal has.
    fn entries(&self) -> usize {
        self.stepping.net().journal().len()
    }
}

// The line of a trace behind which so many entries stand: the first one has none.
fn line_of(entries: usize) -> usize {
    entries.saturating_add(1)
}
