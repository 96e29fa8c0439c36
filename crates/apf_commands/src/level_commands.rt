//! The commands on flows and on a level: their names, what they do, and what `--help` says below their arguments.

ghost use Rattle.std.specs.Prelude.{◌≡◌, map};
ghost use Rattle.apf_commands.specs.Commands.{level_commands, listed};

use crate::entries::{Entry, Kind};

// Of the command that runs a script.
const REPLAY: &str = "\
CONFIG is one JSON object:
  limit             seats of the level, 1 to 10000; must be there
  queues            number of queues, 1 to 1024; 64 if absent
  handSize          queues dealt to a flow, 1 to 15; 8 if absent
  queueLengthLimit  requests that may wait in a queue, 1 to 10000; 50 if absent
  limitResponse     \"Queue\" or \"Reject\"; \"Queue\" if absent
REQUESTS is one JSON array of at most 10000 objects, numbered from 0:
  hash              the flow, 0 to 18446744073709551615; or else both of
  schema, distinguisher  two texts, of which the hash is made
  width             seats that the request takes, 1 to 20000; 1 if absent
  work              turns of an empty loop, 0 to 1000000; 0 if absent
  cancels           the number of a request to be cancelled; nothing if absent
  closes            true or false, whether the request closes the level; false if absent
  (work, cancels and closes are used by apf run alone)
SCRIPT has one command a line, each line ended by LF, and at most 100000 lines:
  arrive N, finish N, cancel N   of request N
  close                          the level
  limit N                        the level's seats become N, 1 to 10000

apf replay prints what became of each line, and then four lines, the book:
  execute         the request has its seats, and runs
  queued Q        it waits in queue Q
  queue-full Q, closed, concurrency-limit   it is rejected: its queue was full, the level was
                  closed, or it found no room on a level that rejects
  dispatch N queue Q   a request that waited was given its seats
  strike N queue Q     a cancelled request was taken out of its queue
  level ..        whether the level is open, its seats in use, and how many requests wait
  executed ..     requests by decision; the executed include those that still run
  queue-full ..   the rejected by reason
  entered ..      requests that entered a queue, were dispatched, and were struck
apf explain says what is wrong with the files where one has a fault.

Example:
  $ cd examples/first
  $ cat config.json requests.json script.txt
  {\"limit\":1}
  [{\"hash\":0}]
  arrive 0
  finish 0
  $ apf replay config.json requests.json script.txt
  arrive 0 execute
  finish 0
  level open seats 0 waiting 0
  executed 1 rejected 0 cancelled 0 undecided 0
  queue-full 0 closed 0 concurrency-limit 0
  entered 0 dispatched 0 struck 0

Status: 0 done, 1 a file's fault or output that can't be written, 2 a command line's fault,
3 no memory.";

static ENTRIES: [Entry; 8] = [
    Entry {
        name: "hash",
        about: "Print the hash of a flow",
        help: "\
Prints 16 hexadecimal digits: the first 8 bytes, read little-endian, of the SHA-256 digest of
the schema's name, a zero byte and the distinguisher.

Example:
  $ apf hash workload-low alice
  a67f3f6bc7204775

A text that begins with - needs -- before it: apf hash -- -a b
Status: 0 done, 1 output that can't be written, 2 a command line's fault, 3 no memory.",
        kind: Kind::Flow,
    },
    Entry {
        name: "deal",
        about: "Print the hand of queues that a hash is dealt",
        help: "\
DECK and HAND are 0 to 4294967295, HASH is 0 to 18446744073709551615. Prints the numbers of HAND
queues, from 0, in the order dealt. Refused, by the first of these:
  dealer fault 1: not positive       DECK or HAND is 0
  dealer fault 2: hand too large     HAND is above DECK
  dealer fault 3: deck too large     DECK is above 67108864
  dealer fault 4: too much entropy   DECK to the power of HAND is above 2 to the power of 60

Example, and how to deal what apf hash prints:
  $ apf deal 64 8 11997377664473122677
  53 10 14 48 28 31 60 7
  $ apf deal 64 8 $(printf %u 0x$(apf hash workload-low alice))
  53 10 14 48 28 31 60 7

Status: 0 done, 1 output that can't be written, 2 a command line's fault or a dealer fault,
3 no memory.",
        kind: Kind::Deck,
    },
    Entry {
        name: "replay",
        about: "Run a script of requests and print each decision",
        help: REPLAY,
        kind: Kind::Script,
    },
    Entry {
        name: "run",
        about: "Run the requests on worker threads and print the book",
        help: "\
CONFIG is one JSON object:
  limit             seats of the level, 1 to 10000; must be there
  queues            number of queues, 1 to 1024; 64 if absent
  handSize          queues dealt to a flow, 1 to 15; 8 if absent
  queueLengthLimit  requests that may wait in a queue, 1 to 10000; 50 if absent
  limitResponse     \"Queue\" or \"Reject\"; \"Queue\" if absent
REQUESTS is one JSON array of at most 10000 objects, numbered from 0:
  hash              the flow, 0 to 18446744073709551615; or else both of
  schema, distinguisher  two texts, of which the hash is made
  width             seats that the request takes, 1 to 20000; 1 if absent
  work              turns of an empty loop, 0 to 1000000; 0 if absent
  cancels           the number of a request to be cancelled; nothing if absent
  closes            true or false, whether the request closes the level; false if absent

Worker K of M brings the requests to their ends whose number leaves K when divided by M: it
closes the level if the request says so, waits until it is decided, and if it executes does its
work, cancels whom it names and gives the seats back. Then the book of the level is printed.

With --rounds N each worker goes N times through its requests. Each time another request comes in
the place of the same one of the file, and whoever holds the named place then is cancelled. The
book is that of all of them.

Where a file has a fault, apf explain says what is wrong, with any script, as /dev/null.

Examples:
  $ apf run examples/noisy-client/config.json examples/noisy-client/requests.json 8 | sed -n 1p
  level open seats 0 waiting 0
  $ cd examples/first && apf run config.json requests.json 8 --rounds 1000
  level open seats 0 waiting 0
  executed 1000 rejected 0 cancelled 0 undecided 0
  queue-full 0 closed 0 concurrency-limit 0
  entered 0 dispatched 0 struck 0

Status: 0 done, 1 a file's fault or output that can't be written, 2 a command line's fault,
3 no memory or a worker that could not start.",
        kind: Kind::Workers,
    },
    Entry {
        name: "services",
        about: "Run a script of requests and print each queue's service",
        help: "\
Runs the script as apf replay does. Prints a line for each queue that a request entered, in
ascending order:
  queue Q entered N service S
  N  requests that entered queue Q
  S  seats of those that were dispatched from it, together

The files are those of apf replay; apf replay --help says what they hold. apf explain says what is
wrong with them where one has a fault.

Example:
  $ cd examples/noisy-client && apf services config.json requests.json script.txt | sed -n 1,2p
  queue 1 entered 50 service 9
  queue 2 entered 2 service 2

Status: 0 done, 1 a file's fault or output that can't be written, 2 a command line's fault,
3 no memory.",
        kind: Kind::Script,
    },
    Entry {
        name: "waits",
        about: "Run a script of requests and print what was granted while each request waited",
        help: "\
Prints a line for each request that entered a queue, in ascending order:
  request R queue Q ahead A most M all T dispatched|struck|waiting
While request R waited in queue Q, from its entry until it was dispatched, or struck out after a
cancel, or the script ended:
  A  seats of the requests that stood before it in its queue when it entered
  M  most seats that one other queue was given
  T  seats that all queues were given, its own among them
M is at most A and twice the widest request of the level.

The files are those of apf replay; apf replay --help says what they hold. apf explain says what is
wrong with them where one has a fault.

Example:
  $ cd examples/noisy-client && apf waits config.json requests.json script.txt | sed -n 1,2p
  request 10 queue 36 ahead 0 most 1 all 15 dispatched
  request 11 queue 57 ahead 0 most 1 all 24 dispatched

Status: 0 done, 1 a file's fault or output that can't be written, 2 a command line's fault,
3 no memory.",
        kind: Kind::Script,
    },
    Entry {
        name: "explain",
        about: "Judge the files of a replay and print the first fault for a person",
        help: "\
Judges the three files as apf replay does. Of the first fault it prints one line: the file, the
place in it, the key or the line, what stands there and what may stand there. It prints nothing
where there is no fault. The fault as apf replay has it is on standard error. apf replay --help
says what the files hold. - is standard input for one of them.

Example:
  $ echo '{\"limit\":0}' | apf explain - examples/first/requests.json examples/first/script.txt
  standard input: limit is 0: it must be a whole number from 1 to 10000
  apf: config fault 5: bad value of limit

Status: 0 no fault, 1 a file's fault or output that can't be written, 2 a command line's fault,
3 no memory.",
        kind: Kind::Script,
    },
    Entry {
        name: "serve",
        about: "Keep a level open, with commands on standard input and answers on standard output",
        help: "\
Keeps one level open for a server's whole life, behind a pipe: commands come on standard input, one
a line, and answers go to standard output, until the input ends. Then the book of the level is
printed. docs/SERVE.md has the protocol.

CONFIG is that of apf replay; apf replay --help says what it holds. It is a file, and not -.

A request is charged its seats times the mean time of its flow's requests so far, as the commands
finish N T tell it. With --charge seats it is charged its seats.

Example:
  $ printf 'arrive 0 {\"hash\":7}\\nfinish 0 1200\\n' | apf serve examples/first/config.json --slots 500
  serve 1 slots 500 limit 1 queues 64 hand 8 length 50 queue
  arrive 0 execute
  finish 0
  level open seats 0 waiting 0
  executed 1 rejected 0 cancelled 0 undecided 0
  queue-full 0 closed 0 concurrency-limit 0
  entered 0 dispatched 0 struck 0

Status: 0 done, 1 a file's fault or output that can't be written, 2 a command line's fault,
3 no memory.",
        kind: Kind::Level,
    },
];

/// The commands, in the order in which help has them.
pub(crate) fn entries() -> &'static [Entry]
    ensures { map listed result.now ≡ level_commands }
{
    &ENTRIES
}
