//! The texts of the help.

/// What `--version` tells: the version, and the logic by which the program is proved. Kits of several names have one logic.
pub(crate) const VERSION: &str = "0.1.0\nrattle logic dac8208d650f15bf";

pub(crate) const PROGRAM: &str = "\
Simulates handshake circuits, given as Breeze netlists. What it plays, lists and refuses is proved.";

/// What stands behind the options of the program.
pub(crate) const ALL_COMMANDS: &str = "\
`breezesim help COMMAND` tells a command's options, statuses and an example of it.

Example:
  breezesim run --part buffer --netlist examples/buffer.breeze offer:activate run:100";

/// What stands behind the options of `run`.
pub(crate) const RUN: &str = "\
The netlist comes from FILE or from standard input. The trace goes to standard output.

Words, played in order as host 1:
  offer:P, offer:P:V    begin a handshake at a port declared passive, with a value at a push port
  collect:P             end it: take the reply, with its value at a pull port
  accept:P              take the request at a port declared active, with its value at a push port
  answer:P, answer:P:V  reply to it, with a value at a pull port
  watch:P               read the phase of a port
  run:N                 fire up to N times, from component 1 on
P is a port's name, in which %3A stands for a colon. V and N are decimal numbers, V below 2^128, N below 2^64.

Statuses:
  0  all words were played
  1  the netlist is refused (S, B and E faults)
  2  the command line or a word is bad (H1), a file cannot be opened or made, or a file of words cannot be read
  3  an event was refused (N faults), input or output failed (F1, F2), or memory ran out (F3)
  4  with --strict: a host command was not done

Example:
  breezesim run --part buffer --netlist examples/buffer.breeze offer:activate run:100";

/// What stands behind the options of `explore`.
pub(crate) const EXPLORE: &str = "\
Standard input has a command on each line. The line `help` lists them. On a terminal each has a prompt. With --format json each
line is answered by an object of JSON on a line, at once. Lines that come from a terminal may write any file. Others write files
of the current folder or below that end in .trace, .session or .html, or those that --files allows.

Statuses:
  0  each line was followed, and each reply was as expected
  1  a reply was not as expected, the trace is not that of a run, or the netlist is refused (S, B and E faults)
  2  a line could not be followed, the command line is bad, or a file cannot be opened
  3  input or output failed (F1, F2), or memory ran out (F3)

Example:
  breezesim explore --part cross --netlist examples/cross.breeze";

/// What stands behind the options of `check`.
pub(crate) const CHECK: &str = "\
The netlist comes from --netlist or from standard input. The trace comes from --trace, or else stands behind the netlist, as
cat makes one text of two files. With --trace it may be longer than memory. It has at most 16777216 entries. One
line is written:
  run: F fired, H host, R rest  the trace is that of a run, with so many entries of each kind
  run, and not at rest: ..      the same with --to-rest, where some component can move at its end
  not a run: line L             line L is the first that no run allows
  not a trace: line L           line L is the first malformed line
With --first no more is read after a line that no run allows, and the line of the verdict says so.
Of several traces, named by TRACES or in the file of --traces-from, each one is checked by itself. A line NAME: with what is
told above is written for each, in their order, and then how many passed. JSON is one object for each trace, on a line of its own.
With --joined they are pieces of one run, each with a first line and a limit of its own; only the last may have clash lines. One
line is written: on the whole run, or after the name of the first piece that does not go on with it.

Statuses:
  0  the trace is that of a run
  1  it is not (of several: one is not), with --to-rest it does not end at rest, or the netlist is refused (S, B and E faults)
  2  the command line is bad, a file cannot be opened or made, one of several traces cannot be read, or the netlist of a file has
     no trace after it and none is named
  3  input or output failed (F1, F2), or memory ran out (F3)

Examples:
  breezesim check --part buffer --netlist examples/buffer.breeze --trace examples/buffer.trace
  cat examples/buffer.breeze examples/buffer.trace | breezesim check --part buffer";

/// What stands behind the options of `complete`.
pub(crate) const COMPLETE: &str = "\
The netlist comes from FILE, the short trace from SHORT or from standard input. A short trace has a line for each request and
reply, as the channels show them: `ask K`, `ask K V`, `reply K` or `reply K V`. K is a channel's number, the name of a port, or
another name where just one channel has that. Each take and got is put in where its component or the host must have made it. The
trace goes to standard output, and `check` reads it. Where there is none, standard error tells why:
  error: not completed: line L      the move of line L can't be made behind those before it; what was found and what is due
                                    there stand below; with --to-rest also the line behind the last one, where something can move
  error: not a short trace: line L  line L is the first malformed line

Statuses:
  0  the trace was written
  1  there is none, or the netlist is refused (S, B and E faults)
  2  the command line is bad, or a file cannot be opened
  3  the trace would be too long, input or output failed (F1, F2), or memory ran out (F3)

Example:
  breezesim complete --netlist design.breeze design.short";

/// What stands behind the options of `waits`.
pub(crate) const WAITS: &str = "\
The netlist comes from --netlist or from standard input. The trace comes from --trace, or else stands behind the netlist, as
cat makes one text of two files. What is told is what `waits` of explore tells behind that line, with C `waits C`. Where
something can never move again, the first line of the trace behind which that is so is told before. With --source a place in
that file has the text of its line behind it. There may be up to 100 such files, with 4194304 bytes together. Which of these no
place of the net names is told on standard error.

Statuses:
  0  it was told
  1  the trace is not that of a run, or the netlist is refused (S, B and E faults)
  2  the command line is bad, a file cannot be opened, the source is too large, or the line or the component asked for is not
     there
  3  input or output failed (F1, F2), or memory ran out (F3)
  4  with --strict: something can never move again

Example:
  breezesim waits --part cross --netlist examples/cross.breeze --trace examples/cross.trace";

/// What stands behind the options of `list`.
pub(crate) const LIST: &str = "\
The netlist comes from FILE or from standard input. Components and channels are told by their numbers in the net.

Statuses:
  0  the list was written
  1  the netlist is refused (S, B and E faults)
  2  the command line is bad, or a file cannot be opened
  3  input or output failed (F1, F2), or memory ran out (F3)

Example:
  breezesim list --part pipeline --netlist examples/pipeline.breeze --paths";

/// What stands behind the options of `lint`.
pub(crate) const LINT: &str = "\
The netlists come from FILES, from --netlist or from standard input. Of each one the faults of all its parts are told, each
with its place and its notes, and where there is none, warnings; of the rest how many there are. JSON is one object for each
netlist, on a line of its own.

Statuses, of several netlists the greatest:
  0  there is no fault
  1  there is a fault (S, B and E faults)
  2  the command line is bad, or a file cannot be opened
  3  input or output failed (F1, F2), or memory ran out (F3)

Examples:
  breezesim lint examples/pipeline.breeze examples/buffer.breeze
  breezesim lint --netlist examples/pipeline.breeze --format json";

/// What stands behind the options of `parts`.
pub(crate) const PARTS: &str = "\
The netlist comes from FILE or from standard input. Each part is told as its text has it: no net is opened.

Statuses:
  0  the parts were listed
  1  the netlist is refused (S and B faults)
  2  the command line is bad, or a file cannot be opened
  3  input or output failed (F1, F2), or memory ran out (F3)

Example:
  breezesim parts --netlist examples/pipeline.breeze";

/// What stands behind the options of `kinds`.
pub(crate) const KINDS: &str = "\
No netlist is read.

Statuses:
  0  the kinds were written
  2  the command line is bad
  3  output failed (F2), or memory ran out (F3)

Example:
  breezesim kinds --format json";

/// What stands behind the options of `draw`.
pub(crate) const DRAW: &str = "\
The netlist comes from FILE or from standard input. The graph is in the DOT language.
Without --depth the greatest depth is taken at which at most 300 components and boxes are drawn, or else 0.
A drawing holds 5000 components and boxes: of a larger net, --around C draws what is near component C.
With --trace each channel that is not idle behind that line has the colour of its phase, and the value that is on it.

Statuses:
  0  the graph was written
  1  the netlist is refused (S, B and E faults), or the trace is not that of a run
  2  the command line is bad, a file cannot be opened, there is no such drawing, or the line asked for is not there
  3  input or output failed (F1, F2), or memory ran out (F3)

Example:
  breezesim draw --part buffer --netlist examples/buffer.breeze | dot -Tsvg > buffer.svg";

/// What stands behind the options of `chart`.
pub(crate) const CHART: &str = "\
The netlist comes from --netlist or from standard input. The trace comes from --trace, or else stands behind the netlist, as
cat makes one text of two files. A chart holds 2000 lines. With --only or --ports it has the lifelines of what is named, at a
channel those at its ends, and the lines in which these do something or something is sent to them.

Statuses:
  0  the chart was written
  1  the trace is not that of a run, or the netlist is refused (S, B and E faults)
  2  the command line is bad, a file cannot be opened, the lines asked for are not there or too many, or what is named is not there
  3  input or output failed (F1, F2), or memory ran out (F3)

Example:
  breezesim chart --part buffer --netlist examples/buffer.breeze --trace examples/buffer.trace > buffer.svg";

/// What stands behind the options of `page`.
pub(crate) const PAGE: &str = "\
The netlist comes from --netlist or from standard input. The trace comes from --trace, or else stands behind the netlist, as
cat makes one text of two files. The page is one file, and opens in any browser. It holds nets of up to 100000 components, and
up to 100 files of the source with 4194304 bytes together. Which of these no place of the net names is told on standard error.

Statuses:
  0  the page was written
  1  the trace is not that of a run, or the netlist is refused (S, B and E faults)
  2  the command line is bad, a file cannot be opened, the net is too large, or the source is
  3  input or output failed (F1, F2), or memory ran out (F3)

Example:
  breezesim page --part buffer --netlist examples/buffer.breeze --trace examples/buffer.trace > buffer.html";

/// What stands behind the options of `pool`.
pub(crate) const POOL: &str = "\
The netlist comes from FILE or from standard input. The trace goes to standard output once all have ended.

Words of up to 16 sessions, a / alone between one session's words and the next one's. Each word waits until it can be played:
  offer:P, offer:P:V    begin a handshake at a port declared passive, with a value at a push port
  collect:P             end it: take the reply, with its value at a pull port
  accept:P              take the request at a port declared active, with its value at a push port
  answer:P, answer:P:V  reply to it, with a value at a pull port
  watch:P               read the phase of a port
P is a port's name, in which %3A stands for a colon. V is a decimal number below 2^128.

Statuses:
  0  all came to an end; without --strict also where a session still waited: a note on standard error tells it
  1  the netlist is refused (S, B and E faults)
  2  the command line or a word is bad (H1), a file cannot be opened, or a file of words cannot be read
  3  an event was refused (N faults), records disagree (C1), a thread could not be started (P3), input or output failed
     (F1, F2), or memory ran out (F3)
  4  with --strict: a session still waited

Example:
  breezesim pool --part two --netlist examples/two.breeze --words examples/two.words";

/// What stands behind the options of `test`.
pub(crate) const TEST: &str = "\
A bench has a line for each port, with what passes there in order. At a push of the net or a passive pull the values are due,
elsewhere they are given:
  P ITEM..              P is a port's name, in which %3A stands for a colon
  V, V*N, V*            a value, N times, or last as often as it is asked for; also of . and ?
  ?                     any value, where one is due
  .                     a handshake of a sync port
  >                     last: one that begins and need not end, at a passive sync port
  @FILE                 the items of FILE
  :netlist FILE         the netlist, from the bench's folder on
  :part P               its part
  :then                 what stands above is done before what follows begins
  :spins                the net may go round for ever once all has passed
A # begins a comment. Without a seed the net runs to rest before each word.
With --bless a bench that does not pass is written anew: with what came, in place of what was due, and all else as it is.

Statuses:
  0  all passed
  1  values were others than due, some did not come, more came, or the net goes round for ever
  2  a bench is none (L faults), a netlist is refused, a file cannot be read or written, or the command line is bad
  3  input or output failed (F1, F2), or memory ran out (F3)
  4  nothing worse, and a play did not come to an end

Example:
  breezesim test --netlist examples/gcd.breeze examples/gcd.bench";
