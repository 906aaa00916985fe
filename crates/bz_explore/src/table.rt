//! The commands: one text, by which lines are read and which `help` tells.

use bz_text::Text;
use std::alloc::{AllocError, Global};

/// A line for each form of a command: how it is typed, what stands in brackets being left out at will, and behind two blanks or
/// more what it does.
const COMMANDS: &str = "\
moves             what can come next: the moves of components, and the host's words that would be done
fire C [P]        make the move of component C at port P; without P at its lowest port that can
run [N]           fire up to N times, going on where the last run ended; without N until rest, and on with hosts that stand by
run to THING [N]  the same until something has moved at a component, on a channel or at a port THING, N times at most
random N          fire N moves picked by the seed
seed N            begin the picking anew
offer:P[:V]       begin a handshake at a port P declared passive, with a value V at a push port
collect:P         end it: take the reply, with its value at a pull port
accept:P          take the request at a port P declared active, with its value at a push port
answer:P[:V]      reply to it, with a value V at a pull port
watch:P           read the phase of a port P
expect REPLY      compare the host's last reply; a difference makes the status 1
feed P [V..]      let a host stand by at a port P that gives these values, A..B from A to B; without any let it leave
drain P [N]       let a host stand by at a port P that takes what comes, N times or always
hosts             the hosts that stand by
passed [P]        the values that passed at each port, or at a port P
expect passed P [V..]  compare them; a difference makes the status 1
waits [C]         why nothing moves: what is stuck, what has halted, and where the host is waited for; what C hangs on
waits all         who holds each channel that is not idle, and for whom each component waits
waits since       the first line of the trace behind which something can never move again
state [C]         how far it is; of component C its place, its ports and what is due there
values            what each variable keeps, and the values that are on channels
counts [N]        how many handshakes have ended on channels, the N with the most first, and how many components never moved
counts never      the components that have never moved
names on|off      write what each move is in words behind its line, or leave it
undo [N]          take back the last N commands that moved something; without N one
redo              make again what the last undo took back, until something else has moved
trace[!] FILE     write the trace so far; only with the `!` over a file that is there
page[!] FILE      write a page on which the trace so far plays in a browser, with who waits for whom at its end
session[!] FILE   write the commands that stand, each host word with its reply to `expect`
say TEXT          answer TEXT
help [COMMAND]    the list of commands, or one of them; also `?`
quit              leave, as the end of the input does; also `exit` and `q`
";

/// What is told behind them all.
const BEHIND: &str = "\
C is a component's number, also behind its kind, or a channel's behind a `k`: `12`, `Fetch 12`, `k133`; of `waits` and `state`
also a name of the source, or FILE:LINE or FILE:LINE:COLUMN; THING is any of these, or a port
# begins a comment
";

/// What a line can ask for.
#[derive(Clone, Copy)]
pub(crate) enum Command {
    Moves,
    Fire,
    Run,
    RunTo,
    Random,
    Seed,
    /// What the host does, which is one word.
    Host,
    Expect,
    Feed,
    Drain,
    Hosts,
    Passed,
    ExpectPassed,
    Waits,
    WaitsAll,
    WaitsSince,
    State,
    Values,
    Counts,
    CountsNever,
    Names,
    Undo,
    Redo,
    Trace,
    Page,
    Session,
    Say,
    Help,
    Quit,
}

impl Command {
    // That of a form, by its first two words.
    fn of(word: &str, second: &str) -> Option<Command> {
        let command = match (word, second) {
            ("moves", _) => Command::Moves,
            ("fire", _) => Command::Fire,
            ("run", "to") => Command::RunTo,
            ("run", _) => Command::Run,
            ("random", _) => Command::Random,
            ("seed", _) => Command::Seed,
            ("offer" | "collect" | "accept" | "answer" | "watch", _) => Command::Host,
            ("expect", "passed") => Command::ExpectPassed,
            ("expect", _) => Command::Expect,
            ("feed", _) => Command::Feed,
            ("drain", _) => Command::Drain,
            ("hosts", _) => Command::Hosts,
            ("passed", _) => Command::Passed,
            ("waits", "all") => Command::WaitsAll,
            ("waits", "since") => Command::WaitsSince,
            ("waits", _) => Command::Waits,
            ("state", _) => Command::State,
            ("values", _) => Command::Values,
            ("counts", "never") => Command::CountsNever,
            ("counts", _) => Command::Counts,
            ("names", _) => Command::Names,
            ("undo", _) => Command::Undo,
            ("redo", _) => Command::Redo,
            ("trace", _) => Command::Trace,
            ("page", _) => Command::Page,
            ("session", _) => Command::Session,
            ("say", _) => Command::Say,
            ("help", _) => Command::Help,
            ("quit", _) => Command::Quit,
            _ => return None,
        };
        Some(command)
    }
}

/// How a command is typed: its words, and what belongs behind them.
#[derive(Clone, Copy)]
pub(crate) struct Form {
    pub command: Command,
    pub typed: &'static str,
}

impl Form {
    /// That of the command which a line's first word begins, if it begins one; of several the first.
    pub fn begun_by(head: &str) -> Option<Form> {
        let word = unaliased(head);
        for line in COMMANDS.lines() {
            let form = form_of(line)?;
            if form.word() == word && (form.writes() || !head.ends_with('!')) {
                return Some(form);
            }
        }
        None
    }

    /// The form of this word whose second word stands behind it, as in `run to`, else this form.
    pub fn followed_by(self, second: Option<&str>) -> Form {
        let second = second.unwrap_or("");
        for line in COMMANDS.lines() {
            match form_of(line) {
                Some(form) if form.word() == self.word() && form.second() == Some(second) => {
                    return form;
                }
                _ => {}
            }
        }
        self
    }

    /// The second word of the command, where it has one.
    pub fn second(self) -> Option<&'static str> {
        match self.command {
            Command::RunTo
            | Command::ExpectPassed
            | Command::WaitsAll
            | Command::WaitsSince
            | Command::CountsNever => self.typed.split(' ').nth(1),
            _ => None,
        }
    }

    // How many words are its own.
    fn own(self) -> usize {
        if self.second().is_some() { 2 } else { 1 }
    }

    /// That of the host's word which stands in front of a colon.
    pub fn of_host(word: &str) -> Option<Form> {
        match Form::begun_by(word.split(':').next().unwrap_or("")) {
            Some(form) if form.is_host() => Some(form),
            _ => None,
        }
    }

    /// The word of the command.
    pub fn word(self) -> &'static str {
        first_word(self.typed)
    }

    /// Whether it is something that the host does, which is one word.
    pub fn is_host(self) -> bool {
        matches!(self.command, Command::Host)
    }

    /// Whether it writes a file: over one that is there where a `!` follows its word.
    fn writes(self) -> bool {
        self.typed.contains('!')
    }

    /// How many words can stand behind its own.
    pub fn most(self) -> usize {
        self.typed.split_whitespace().skip(self.own()).count()
    }

    /// What belongs at a place behind its own words, in brackets where it may be left out.
    pub fn taken_at(self, place: usize) -> Option<&'static str> {
        self.typed.split_whitespace().skip(self.own()).nth(place)
    }

    /// Whether as many words may stand behind its own as one likes: a reply may be of two.
    pub fn takes_many(self) -> bool {
        matches!(
            self.typed.split(' ').last(),
            Some("REPLY" | "[V..]" | "TEXT")
        )
    }

    /// Whether what comes first behind its own words is a component or a channel.
    pub fn takes_thing(self) -> bool {
        matches!(self.taken_at(0), Some("C" | "[C]" | "THING"))
    }
}

// The word of the command that a line's first word begins, where it begins one.
fn unaliased(head: &str) -> &str {
    match head.strip_suffix('!') {
        Some(word) => word,
        None => match head {
            "?" => "help",
            "exit" | "q" => "quit",
            head => head,
        },
    }
}

// The form of a line of the commands.
fn form_of(line: &'static str) -> Option<Form> {
    let typed = line.split("  ").next().unwrap_or("");
    let second = typed.split(' ').nth(1).unwrap_or("");
    let command = Command::of(first_word(typed), second)?;
    Some(Form { command, typed })
}

// The word of a command, with which its line begins.
fn first_word(line: &'static str) -> &'static str {
    line.split([' ', ':', '[']).next().unwrap_or("")
}

/// Adds what the commands of a form's word do, or the list of all.
pub(crate) fn put_help(form: Option<Form>, text: &mut Text) {
    let Some(form) = form else {
        text.put(COMMANDS);
        text.put(BEHIND);
        return;
    };
    for line in COMMANDS.lines() {
        match form_of(line) {
            Some(other) if other.word() == form.word() => {
                text.put(line);
                text.put("\n");
            }
            _ => {}
        }
    }
}

/// The words of the commands.
pub(crate) fn words_of_commands(alloc: Global) -> Result<Vec<&'static [u8]>, AllocError> {
    let mut words = Vec::new(alloc);
    for line in COMMANDS.lines() {
        words.push(first_word(line).as_bytes())?;
    }
    Ok(words)
}
