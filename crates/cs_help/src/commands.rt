//! The text of each command.

pub const COMMANDS: &str = "usage: chainspace COMMAND ..
  replay [--trace] [--dumps] < SCHEDULE   plays a schedule
  contract [--print] [--explain] < TEXT   judges a contract
  try FILE < CASES                        tries a contract on cases
  verify < CLAIM                          judges a proof of a log entry
  audit < DUMP                            judges the logs of a ledger
  simulate N SIZE                         plays a random schedule, and counts
  node SITE KEYS --ticks N                runs a node
  client SITE KEYS CALL --ticks N         makes a call
  show SITE KEYS KEY --ticks N            tells the state of an object or dummy
  keys SITE MASTER                        saves all key files of a site
  cluster PLAN                            runs a whole ledger, for trials
  wallet new | key | sign FILE ..         keeps one-time keys, and signs
  transaction [--number N] < TEXT         tells what a transaction is
  help [COMMAND]                          tells of all commands, or of one
  version                                 tells the version and the logic
";

pub const REPLAY: &str = "usage: chainspace replay [--trace] [--dumps] < SCHEDULE
Plays a schedule, and prints what each node executes and the history.
  --trace   prints each event too, and each datagram that is dropped or sent
  --dumps   prints behind all that the logs of the shards, for an auditor
status: 0 done, 3 a line is refused, 4 a line injects a forgery, 13 a limit
example: chainspace replay --trace < examples/pay.schedule
";

pub const CONTRACT: &str = "usage: chainspace contract [--print] [--explain] < TEXT
Prints the id of a contract, and what its methods cost; or its first fault.
  --print     prints its text instead, as the printer lays it out
  --explain   tells behind a fault what stands there and what could, and behind
              the costs what may not be meant
status: 0 accepted, 3 refused, 13 too many bytes
example: chainspace contract < examples/contracts/pay.contract
";

pub const TRY: &str = "usage: chainspace try FILE < CASES
Tries the contract of a file on cases, a line each: a method, the objects that
it consumes, behind + those that it reads, and its arguments. Prints what its
checks say of what the procedure makes, or of what stands behind ->.
status: 0 no case failed, 9 one failed, 3 refused, 12 no such file, 13 a limit
example: chainspace try examples/contracts/pay.contract
         < examples/contracts/pay.cases
";

pub const VERIFY: &str = "usage: chainspace verify < CLAIM
Says whether a proof shows an entry of a log to who trusts a head.
status: 0 shown, 9 not shown, 3 a line is refused, 13 too many bytes
example: chainspace verify < examples/claims/slot-15.claim
";

pub const AUDIT: &str = "usage: chainspace audit < DUMP
Executes the logs of a ledger anew. Prints yes and the history, or the first
rule that is broken, with its shard and slot.
status: 0 yes, 9 no, 3 a line is refused, 13 a limit
example: chainspace replay --dumps < examples/pay.schedule | chainspace audit
";

pub const SIMULATE: &str = "usage: chainspace simulate N SIZE
Plays the schedule of a number and a size (1 to 1000 coins), and prints counts.
The same words print the same.
status: 0 done, 3 two coins have one key, 13 a limit
example: chainspace simulate 1 4
";

pub const NODE: &str = "usage: chainspace node SITE KEYS --ticks N [--hosts FILE]
Runs the node of a site file and a key file, and prints what it executes.
  --ticks N      for N ticks, of 20 milliseconds if FILE doesn't say otherwise
  --turns N      for N inputs, datagrams or ticks
  --hosts FILE   where all are; without it they are on this machine
status: 0 done, 7 the socket fails, 12 a file isn't taken
example: chainspace node site.toml keys-0.0.toml --ticks 180000
";

pub const CLIENT: &str = "usage: chainspace client SITE KEYS CALL --ticks N [--hosts FILE]
                         [--details] [--tries N] [--dummy N] [--session HEX]
Makes the call of a call file, and prints what has become of its session.
  --ticks N      for N ticks at most, of 20 milliseconds if FILE doesn't say
                 otherwise
  --turns N      for N inputs at most, datagrams or ticks
  --hosts FILE   where all are; without it they are on this machine
  --details      tells first what is wrong with the call by its file alone,
                 prints the session before it is submitted, and what it made
                 once it is accepted; behind all other words, as the next ones
  --tries N      makes the call again where it is aborted, under the next
                 number, N tries at most (1 to 64)
  --dummy N      asks each shard for its dummies from number N on, and takes
                 the least that is free
  --session HEX  submits that session of the call, which was made before, by its
                 encoding; without --tries and --dummy
status: 0 accepted or aborted, 10 open, 3 the call is refused,
        7 the socket fails, 12 a file isn't taken
example: chainspace client site.toml keys-c.0.toml pay.toml --ticks 1500
";

pub const SHOW: &str = "usage: chainspace show SITE KEYS KEY --ticks N [--hosts FILE]
Asks all nodes of a key's shard, as a client, for what f+1 of them tell:
active OBJECT, locked SESSION, inactive SESSION, shared READERS or unknown.
  KEY            64 hex digits, an object; or S:N, the dummy N of shard S
  --ticks N      for N ticks at most, of 20 milliseconds if FILE doesn't say
                 otherwise
  --turns N      for N inputs at most, datagrams or ticks
  --hosts FILE   where all are; without it they are on this machine
status: 0 told, 10 open, 3 there is no such shard, 7 the socket fails,
        12 a file isn't taken
example: chainspace show site.toml keys-c.0.toml 1:0 --ticks 100
";

pub const KEYS: &str = "usage: chainspace keys SITE MASTER
Saves the key files of all nodes and clients of a site, in this folder.
  MASTER   64 hex digits, or - where standard input has them
status: 0 saved, 3 no master key, 12 a file isn't taken or saved
example: chainspace keys site.toml - < master
";

pub const CLUSTER: &str = "usage: chainspace cluster PLAN
Saves the key files of a plan's site, starts all nodes, runs the calls one after
the other, and prints how each of them ended. For trials on one machine.
status: 0 done, 11 a child isn't started, 12 a file isn't taken or saved
example: chainspace cluster plan.toml
";

pub const WALLET: &str = "usage: chainspace wallet new FILE SEED
       chainspace wallet key FILE N
       chainspace wallet sign FILE N MESSAGE
Saves a wallet of one-time keys, whatever FILE held; prints the public key of
a number; or signs a message under a number, and prints the 16 texts. Then the
number signs no other message. Two copies of FILE can: back it up before you
sign, and never sign with a copy that doesn't know all that was signed.
  SEED, MESSAGE   64 hex digits
status: 0 done, 3 the number has signed another message,
        12 the file isn't taken or saved, 13 too many numbers have signed
example: chainspace wallet key wallet.toml 0
";

pub const TRANSACTION: &str = "usage: chainspace transaction [--number N] < TEXT
Reads a transaction in words, and prints its encoding and its digest, what is
to be signed of each trace, and the name of each output.
  --number N   prints the session of that number too, without dummies
status: 0 done, 3 the text is refused, 13 too many bytes
example: chainspace transaction < examples/wallet/pay.toml
";

pub const HELP: &str = "usage: chainspace help [COMMAND]
Tells of all commands, or of one.
status: 0
example: chainspace help client
";

pub const VERSION: &str = "usage: chainspace version
Tells the program's version, and the line of the logic that it was proved in.
status: 0
example: chainspace version
";
