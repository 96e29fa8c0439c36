//! The commands on traces, on audit logs and on a cluster's objects: their names, what they do, and what `--help` says below their arguments.

ghost use Rattle.std.specs.Prelude.{◌≡◌, map};
ghost use Rattle.apf_commands.specs.Commands.{trace_commands, listed};

use crate::entries::{Entry, Kind};

static ENTRIES: [Entry; 11] = [
    Entry {
        name: "simulate",
        about: "Simulate requests with times and print each flow's waits and the book",
        help: "\
Requests arrive at their times, run for their times and give their seats back, on the level of
CONFIG alone. This is a simulation of that level by this project's rules, and not kube-apiserver:
no clock runs, a dispatch is charged a number that is known before, and no level borrows or lends.

CONFIG is that of apf replay; apf replay --help says what it holds.
TRACE is JSON Lines: one JSON object a line, each line ended by LF, of at most 65536 bytes, in any
order of time. Of more than 131072 lines, each may come up to 131072 places late. timeline, picture
and requests take at most 10000 lines, but picture --from T --to T any number. At most 10000
requests may be there at once.
Requests are numbered from 0. Times are whole microseconds from the trace's beginning:
  arrivesAt         when the request arrives, 0 to 1000000000000; must be there
  runsFor           how long it holds its seats, 0 to 10000000000; must be there
  hash              the flow, 0 to 18446744073709551615; or else both of
  schema, distinguisher  two texts, of which the hash is made
  width             seats that the request takes, 1 to 20000; 1 if absent
  cost              what a dispatch is charged, 1 to 4294967295; see below if absent
PATIENCE is a number with m, s, ms or us behind it, as 1.5s, or a whole number of microseconds: at
most 1000s. A request that waits so long after its arrival gives up. With 0 nobody gives up. An API
server lets a request wait for a quarter of its time-out, by default 15s.
A dispatch is charged what its request is expected to take as it arrives: its width times the mean
of how long its flow's requests ran that finished until then. Of a flow of which none did it is the
mean of the first requests of flows, and 10 ms if there was none. With --charge seats a dispatch is
charged its width, and so it is where a line has a cost and no --charge is given.

Prints a line for each flow, in the order of their first requests, a line of the whole, and the
book of apf replay:
  flow H requests N executed E rejected J cancelled X seat-time T wait median A p99 B longest C of
    SCHEMA DISTINGUISHER, on one line
  end T seat-time U of V waited W patience P
  flow H       the flow's hash, in hexadecimal digits
  seat-time T  the sum of width times runsFor of the flow's executed requests; U is that of all
  wait         microseconds that its executed requests waited: median, 99th percentile, longest; of
               more than 10000 waits the first two are shortened, with a ~ before them
  others       stands in place of flow H on the one line of all flows behind the first 100000
  of SCHEMA DISTINGUISHER  as JSON texts; nothing where the flow's first request gives the hash
  end T        when the last thing was done, in microseconds
  of V         the level's limit times the end
  waited W     microseconds that all requests waited, those that gave up too
  patience P   PATIENCE in microseconds

With --bound it prints one line more, of requests that were dispatched from queues: while queue A
was never empty, those of B took D more seat-time than those of A, and no two queues came further
apart. It is at most L. It is of measured time: a level that charges seats has no such line.
  bound A B D cost M misjudged E limit L
  bound none   where no request waited, or the level has one queue
  cost M       the largest cost of a request that entered a queue
  misjudged E  the most by which those of one queue that ran at one moment took more than they were
               charged, and less, and those of two queues the one more and the other less
  limit L      twice M, and three times E

Example:
  $ cd examples/noisy-client
  $ cat config.json
  {\"limit\": 10, \"queues\": 64, \"handSize\": 8, \"queueLengthLimit\": 50, \"limitResponse\": \"Queue\"}
  $ sed -n 1p trace.jsonl
  {\"schema\": \"global-default\", \"distinguisher\": \"alice\", \"arrivesAt\": 168371, \"runsFor\": 84650}
  $ apf simulate config.json trace.jsonl 8s | tail -n 5
  end 14043696 seat-time 120369358 of 140436960 waited 3188642653 patience 8000000
  level open seats 0 waiting 0
  executed 394 rejected 77 cancelled 232 undecided 0
  queue-full 77 closed 0 concurrency-limit 0
  entered 596 dispatched 364 struck 232

Status: 0 done, 1 a file's fault or output that can't be written, 2 a command line's fault,
3 no memory.",
        kind: Kind::Bounded,
    },
    Entry {
        name: "timeline",
        about: "Simulate requests with times and print the script of the simulation",
        help: "\
Prints the script of what apf simulate does, for apf replay: one line for each arrival, end and
request that gives up, in the order of their times in microseconds. Of one time come first the ends,
then those who give up, then the arrivals, each by the requests' numbers. The script has no times.

It simulates this level by this project's rules, and not kube-apiserver. TRACE is JSON Lines, and
PATIENCE is as 15s or in microseconds; apf simulate --help says what they and CONFIG hold.

Example, and the same run by apf replay, which charges seats:
  $ apf timeline examples/noisy-client/config.json examples/noisy-client/trace.jsonl 8s \\
  >   --charge seats >script.txt
  $ apf requests examples/noisy-client/trace.jsonl >requests.json
  $ apf replay examples/noisy-client/config.json requests.json script.txt | tail -n 4
  level open seats 0 waiting 0
  executed 402 rejected 76 cancelled 225 undecided 0
  queue-full 76 closed 0 concurrency-limit 0
  entered 601 dispatched 376 struck 225

Status: 0 done, 1 a file's fault or output that can't be written, 2 a command line's fault,
3 no memory.",
        kind: Kind::Simulation,
    },
    Entry {
        name: "compare",
        about: "Simulate requests with times on two levels and print both, flow by flow",
        help: "\
Simulates the trace on the level of CONFIG, and on that of OTHER. Prints a line of names, a line
for each flow, and a line of the whole. First come the flows whose longest wait changes most. Each
number but the first stands twice: on the one level, and on the other.
  flow        the flow's hash, in hexadecimal digits; others for all flows behind the first 100000
              that arrive; whole for all requests
  requests    how many it has
  median, p99, longest  of the waits of its executed requests, in microseconds; p99 is the 99th
              percentile; of more than 10000 waits both are shortened, with a ~ before them
  rejected    requests that were rejected
  cancelled   requests that gave up
  schema, distinguisher  as JSON texts; nothing where the flow's first request gives the hash

It simulates these levels by this project's rules, and not kube-apiserver. TRACE is JSON Lines, and
PATIENCE is as 15s or in microseconds; apf simulate --help says what they and CONFIG hold.

Example, what happens to the longest waits; column -t lays out all columns:
  $ cd examples/noisy-client
  $ apf compare config.json ../global-default/config.json trace.jsonl 8s | awk '{ print $7, $8 }'
  longest longest-2
  7999458 2239200
  400822 51365
  291295 44546
  143754 31436
  7999458 2239200

Status: 0 done, 1 a file's fault or output that can't be written, 2 a command line's fault,
3 no memory.",
        kind: Kind::Comparison,
    },
    Entry {
        name: "fates",
        about: "Simulate requests with times and print what became of each request",
        help: "\
Prints what became of each request in the run that apf simulate makes: a line of names, and a line
for each request, in the order of their arrivals. Times are microseconds.
  request   its number, from 0
  flow      its flow's hash, in hexadecimal digits
  arrival   when it arrived
  queue     the number of the queue that it entered, or -
  start     when it took its seats, or -
  end       when it finished, gave up or was rejected
  decision  execute, queue-full, concurrency-limit, or cancelled if it gave up
  schema, distinguisher  as JSON texts; nothing where its line of the trace gives the hash

It simulates this level by this project's rules, and not kube-apiserver. TRACE is JSON Lines, and
PATIENCE is as 15s or in microseconds; apf simulate --help says what they and CONFIG hold.

Example, who of the others than the crawler waited for more than 250 ms; column -t lays out all
columns:
  $ cd examples/noisy-client
  $ apf fates config.json trace.jsonl 8s | awk '$5 - $3 > 250000' | grep -v crawler
  40 6cc15f39b7bdc3b9 1094431 63 1495253 1611464 execute \"global-default\" \"bob\"
  127 f4de3bd42ccdf6b7 1348969 55 1640264 1711848 execute \"global-default\" \"alice\"
  608 6cc15f39b7bdc3b9 5156196 63 5439281 5585384 execute \"global-default\" \"bob\"

Status: 0 done, 1 a file's fault or output that can't be written, 2 a command line's fault,
3 no memory.",
        kind: Kind::Simulation,
    },
    Entry {
        name: "requests",
        about: "Print the requests file of a trace",
        help: "\
Prints the requests file of a trace, for apf replay: its flows and widths, one request a line in the
order of their numbers. The times, which a trace has in microseconds, are left out, and so are the
costs. TRACE is JSON Lines; apf simulate --help says what it holds.

With the script of apf timeline --charge seats, apf replay makes the run that apf simulate makes
with --charge seats. Both simulate this level by this project's rules, and not kube-apiserver.

Example:
  $ apf requests examples/noisy-client/trace.jsonl | sed -n 1,2p
  [
  {\"schema\":\"global-default\",\"distinguisher\":\"alice\"},

Status: 0 done, 1 a file's fault or output that can't be written, 2 a command line's fault,
3 no memory.",
        kind: Kind::Trace,
    },
    Entry {
        name: "picture",
        about: "Simulate requests with times and draw the run as an SVG",
        help: "\
Draws the run that apf simulate makes, as one SVG with no script and no other file: the seats in use
by flow against the limit, the queues that were used by their length, each request's wait as a bar
in the row of its flow, and marks where a request was rejected or gave up. At most twelve flows have
a row of their own: those whose requests waited longest in sum, of flows with equal sums those with
most requests, and of these the earlier ones. The others share the last row. Times are microseconds
in the files.

With --from T or --to T it draws that stretch of the run alone. The whole run is simulated all the
same, and may have any length. T is a time of the trace in the forms of PATIENCE, up to 200000000s.
Drawn are the requests that are there at some moment of the stretch: those that arrived by its end,
and were not over before its beginning. At most 10000 may be drawn. Their numbers are of the whole
of each: a wait that began before the stretch counts from its beginning.

It simulates this level by this project's rules, and not kube-apiserver. TRACE is JSON Lines, and
PATIENCE is as 15s or in microseconds; apf simulate --help says what they and CONFIG hold.

Example, and that it is the picture of this repository:
  $ cd examples/noisy-client
  $ apf picture config.json trace.jsonl 8s >drawn.svg
  $ cmp drawn.svg picture.svg
The five seconds in which the crawler's queues are full:
  $ apf picture config.json trace.jsonl 8s --from 1s --to 6s >five-seconds.svg

Status: 0 done, 1 a file's fault or output that can't be written, 2 a command line's fault,
3 no memory.",
        kind: Kind::Picture,
    },
    Entry {
        name: "hands",
        about: "Print the hand of queues of each flow of a trace, and who shares them",
        help: "\
Prints the hand of queues of each flow of a trace, in the order of their first requests, and below
it who shares its queues:
  flow H hand Q1 Q2 .. of SCHEMA DISTINGUISHER
    shares Q with N flows
    covered by H ..
    covered by N more
  H           a flow's hash, in hexadecimal digits
  Q           the number of a queue, from 0, in the order dealt
  shares      how many other flows hold the queue
  covered by  the flows whose hand alone holds all of its queues: the first ten, and how many more
With --flow NAME the hand of each flow of this distinguisher alone, and below it each other flow
that shares a queue with it, and all that cover it:
  flow H hand Q1 Q2 .. of SCHEMA DISTINGUISHER
    shares Q .. with H SCHEMA DISTINGUISHER
    covered by H ..
The hands are those of this level by this project's rules, and not kube-apiserver's. The times of
the trace, in microseconds, change nothing. A level that rejects deals no queues.

TRACE is JSON Lines; apf simulate --help says what it and CONFIG hold.

Examples:
  $ cd examples/noisy-client
  $ apf hands config.json trace.jsonl --flow bob
  flow 6cc15f39b7bdc3b9 hand 57 63 20 32 19 41 31 56 of \"global-default\" \"bob\"
    shares 56 with f4de3bd42ccdf6b7 \"global-default\" \"alice\"
    shares 57 with 0f9520c855d9a224 \"global-default\" \"crawler\"
  $ apf hands config.json trace.jsonl | sed -n 1,2p
  flow f4de3bd42ccdf6b7 hand 55 56 51 36 11 5 38 52 of \"global-default\" \"alice\"
    shares 56 with 1 flows

Status: 0 done, 1 a file's fault or output that can't be written, 2 a command line's fault,
3 no memory.",
        kind: Kind::Flows,
    },
    Entry {
        name: "trace",
        about: "Print the trace of a Kubernetes audit log",
        help: "\
Prints the trace of an audit log of a Kubernetes API server, for apf simulate: one line a request,
in the order of their arrivals. AUDITLOG has one JSON object a line, an audit event. Taken are the
events of stage ResponseComplete, but for the verb watch, the subresources exec, attach,
portforward, proxy and log, and events without a user's name. The log is read in pieces, and may
have any size: a line may come 131072 requests late.
  schema         SCHEMA, at most 4096 bytes
  distinguisher  the event's user.username, or impersonatedUser.username where it stands; with --by
                 namespace objectRef.namespace, empty where there is none
  arrivesAt      its requestReceivedTimestamp, in microseconds from the earliest of those taken
  runsFor        from there to its stageTimestamp, less the annotation
                 apiserver.latency.k8s.io/apf-queue-wait where it stands; of a request that was
                 turned away with status 429 the median of those of its flow that ran, or of all
--since INSTANT takes those received at INSTANT or later, --until INSTANT those received before it.

Examples, from a log to a picture, and how much the system's own users asked for in an hour:
  $ apf trace examples/audit/audit.log users >trace.jsonl
  $ apf picture examples/noisy-client/config.json trace.jsonl 15s >picture.svg
  $ cd examples/audit
  $ apf trace audit.log users --user 'system:*' --since 2026-11-25T12:00:00Z \\
  >   --until 2026-11-25T13:00:00Z | wc -l
  5

Status: 0 done, 1 a file's fault or output that can't be written, 2 a command line's fault or a
SCHEMA that is too long, 3 no memory.",
        kind: Kind::AuditLog,
    },
    Entry {
        name: "objects",
        about: "Print the levels and schemas of a cluster's objects",
        help: "\
OBJECTS is what kubectl get flowschemas,prioritylevelconfigurations -o json prints: one JSON text,
a list of at most 1000 objects, 64 of them levels, or one object. Their apiVersion is
flowcontrol.apiserver.k8s.io/v1, v1beta3 or v1beta2. The server's own objects exempt and catch-all
are added where they lack.

Prints a line for each level, in the order of the objects:
  level NAME nominal N limits MIN..MAX queues Q hand H length L
  nominal N    N is the level's part of the seats by its shares, rounded up
  MIN..MAX     N less what it lends at most, and N with what it borrows at most
  queues ..    its queues, those of a flow's hand, and the requests that may wait in one; or
               rejects, where requests do not wait, or exempt, where they are never held back
Then a line for each schema, in the order in which they are tried:
  schema NAME precedence P level LEVEL by WHO
  by WHO       what makes a flow: user, namespace, or nothing
  dangling     stands at the end of a schema whose level is not there: it is never tried

Example:
  $ apf objects examples/cluster/objects.json --seats 600 | grep global-default
  level global-default nominal 49 limits 24..649 queues 128 hand 6 length 50
  schema global-default precedence 9900 level global-default by user

Status: 0 done, 1 a file's fault or output that can't be written, 2 a command line's fault,
3 no memory.",
        kind: Kind::Objects,
    },
    Entry {
        name: "match",
        about: "Print which schema a request is of, and why no earlier one",
        help: "\
OBJECTS is that of apf objects; apf objects --help says what it holds. The request is said by
--user and --verb, with --resource or --path. Each --group is one of its groups, and it has no
other: the server gives system:authenticated to each user who is known, system:unauthenticated to
system:anonymous, and system:serviceaccounts with system:serviceaccounts:NAMESPACE to service
accounts. --api-group and --namespace go with --resource.

Prints a line for each schema that is tried before, and the first thing of it that did not match,
and then a line of the request's schema:
  not NAME: THING
  schema NAME level LEVEL hash H of DISTINGUISHER hand Q Q ..
  THING        subject, rules, verb, API group, resource, namespace or path; of several rules that
               of the one that matches furthest; rules, where there is none for such a request
  hash H       the hash of the flow, in hexadecimal digits
  of ..        the user, the namespace or the empty text, as a JSON text
  hand ..      the queues of the flow; nothing on a level without queues

With --log LOG each request of an audit log is matched, and a line is printed for each event whose
stage is ResponseComplete, with the number of its line:
  LINE SCHEMA LEVEL DISTINGUISHER
Its user and groups are those of impersonatedUser where it stands. It is a request for a resource
exactly if objectRef is there; else its path is requestURI before ?.

Examples:
  $ apf match examples/cluster/objects.json --user alice --group system:authenticated \\
  >   --verb list --resource pods --namespace shop | grep -o 'hash.*'
  hash f4de3bd42ccdf6b7 of \"alice\" hand 55 62 126 125 105 1
  $ apf match examples/cluster/objects.json --log examples/audit/audit.log | sed -n 1,2p
  2 global-default global-default \"kubernetes-admin\"
  3 kube-system-service-accounts workload-high \"default\"

Status: 0 done, 1 a file's fault or output that can't be written, 2 a command line's fault,
3 no memory.",
        kind: Kind::Match,
    },
    Entry {
        name: "cluster",
        about: "Simulate the requests of an audit log on all levels of a cluster",
        help: "\
Each request of the log runs on the level of its schema, with one seat, as apf simulate has it run:
it waits, gives up after PATIENCE and is charged by time. apf match says which schema that is. All
levels run at once. A level begins with its nominal limit, one seat at least. Every ten seconds the
seats are divided anew by what the requests of each level asked for in that time and before: a level
lends what it does not need, down to its least limit, and borrows up to its greatest. With
--no-lending each level keeps its nominal limit. OBJECTS is that of apf objects, AUDITLOG that of
apf trace.

Prints a line of names, and a line for each level, in the order of the objects:
  LEVEL NOMINAL LIMITS REQUESTS EXECUTED REJECTED TIMED-OUT LOG-429S USED MEDIAN P99 LONGEST
  NOMINAL      the level's part of the seats, as apf objects prints it
  LIMITS       the least and the greatest limit that the level had, or one where they are the same;
               - on a level that is exempt
  TIMED-OUT    how many requests waited for as long as PATIENCE
  LOG-429S     how many the server of the log turned away, by the log itself
  USED         the seats that were in use until the last request of all was over, beside the nominal
               limit; - on a level that is exempt, or where no time went by
  MEDIAN ..    the median, the 99th percentile and the longest of the waits of those executed; of
               more than 10000 waits the first two are shortened, with a ~ before them
Where flows waited or were turned away, a line of names, and a line for each of the first 12:
  LEVEL REQUESTS EXECUTED REJECTED TIMED-OUT MEDIAN P99 LONGEST SCHEMA DISTINGUISHER
Those come first that waited longest, and of one wait those of which most requests were lost. A flow
of a level behind the first 100000 that arrive there has no line: it counts in that of its level.
With --warm-up TIME all this is of the requests that come that long after the first one, and of the
limits and the time from then on. Those before run all the same, so the levels are busy by then.
The last lines say what an audit log does not tell, and what was taken in its place.

With --set or --against a second cluster runs beside the first one, with the same requests. It is
made of the objects of --against, or of OBJECTS again, and then changed by each --set in turn:
  LEVEL.shares=60, .lendable=50, .borrowing=20 or none, .queues=64, .hand=8, .length=50
  LEVEL.seats=100             fixes the nominal limit of the level; the others keep theirs
  LEVEL.response=Queue        or Reject
  schema:NAME.precedence=500, .level=LEVEL, .by=user, namespace or none
  schema:NAME.rate=2x         each request of the schema comes twice, at one time; 0: not at all
  user:NAME.rate=2x           the same of a user
  server.seats=800            in place of --seats
In place of a number *2 is twice what stands there, and +20 is 20 more. A column is a>b where it is
a on the first cluster and b on the second; - stands for what one of the two lacks. Those flows come
first whose longest wait changes most. With --json each object has its \"cluster\", 1 or 2.

With --json each line is a JSON object, with times in microseconds, and seatTime in place of USED:
  {\"level\": ..}   of a level          {\"flowOf\": ..}   of a flow of that level

With --picture FILE the levels are drawn over time, as SVG: the seats in use, the limit, who waits,
and who was rejected. Where a second cluster runs, each level has two strips.

With --http-log FILE the server's own log is read beside AUDITLOG: what klog writes with -v=3. A
request whose line stands there, by its audit id, takes the seats that the line says, and runs as
long. The last lines say how many requests these are, and how many have the same schema there.

With --level NAME --trace the requests of the level NAME are printed as a trace, for simulate, fates
and picture, and nothing is simulated. Their times are from the first request of the whole log.

Example:
  $ apf cluster examples/cluster/objects.json examples/audit/audit.log 15s | grep -E 'level|node'
  level nominal limits requests executed rejected timed-out log-429s used median p99 longest
  node-high 98 98 1 1 0 0 0 0% 0us 0us 0us
What if workload-high had one seat more, and kubernetes-admin asked three times as often?
  $ apf cluster examples/cluster/objects.json examples/audit/audit.log 15s --seats 4 \\
  >   --set workload-high.seats=+1 --set user:kubernetes-admin.rate=3x | grep '>'
  global-default 1 1 2>4 2>4 0 0 0 21%>22% 0us 0us>36ms 0us>36ms
  workload-high 1>2 1>2 3 3 0 0 0 42%>21% 0us 0us 0us
  global-default 1>3 1>3 0 0 0us>18ms 0us>36ms 0us>36ms \"global-default\" \"kubernetes-admin\"

Status: 0 done, 1 a file's fault or output that can't be written, 2 a command line's fault,
3 no memory.",
        kind: Kind::Cluster,
    },
];

/// The commands, in the order in which help has them.
pub(crate) fn entries() -> &'static [Entry]
    ensures { map listed result.now ≡ trace_commands }
{
    &ENTRIES
}
