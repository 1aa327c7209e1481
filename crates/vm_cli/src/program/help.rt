//! The texts of help. In a session, a line after `> ` is the input's, and those below it are the
//! answer.

/// The program's version, the format number of its files, and what `rt version` says of the
/// toolchain that it is proved and built with.
pub const VERSION: &str = "\
0.1.0
file format 3
proved with rattle-kit-13f logic dac8208d650f15bf";

/// What the program is.
pub const ALTCTL: &str = "\
A version managed map store with alternatives.

One file holds one map database in many versions. Alternatives form a tree
under top: each is changed record by record, checkpointed, merged with what its
parent changed since, and posted to its parent. A commit makes all of it last.
Versions share every block that they have in common.";

/// How to make and use a store.
pub const ALTCTL_AFTER: &str = "\
A session, where each line after > is typed, and its answer stands below it:

  $ altctl create map.alt 1024
  created 1024
  $ altctl run map.alt
  > new a top
  ok
  > put a 7 1 duct
  ok
  > get a 7 1
  value duct
  > post a
  ok
  > get top 7 1
  value duct
  > commit
  ok

What was not committed is gone when the input ends. altctl create --help says
how many blocks to take, altctl run --help lists all lines and answers, and
altctl check --help says when to check a store.

Status: 0 where all was done, though altctl run without --strict may have
refused single lines; 1 where the file could not be made or opened, or is
refused; 2 where the words are wrong; 3 where the store failed, the input could
not be read or an output could not be written; 4 where altctl do, or altctl run
--strict, refused a line.";

/// What `create` does.
pub const CREATE: &str = "\
Makes a file with an empty store, which its owner alone can read and write, and
prints the number of its blocks.";

/// The file that `create` makes.
pub const CREATE_FILE: &str = "The file to make, which must not exist";

/// The number of blocks that `create` takes.
pub const CREATE_BLOCKS: &str = "How many blocks it has: 64 to 67108864";

/// How many blocks to take.
pub const CREATE_AFTER: &str = "\
A block has 4,096 bytes: 64 blocks are 256 KiB, 524,288 are 2 GiB, and
67,108,864 are 256 GiB. The disk gives room only as blocks are written.
A file may start small: the lines grow BLOCKS and then commit make it
larger, and no line makes it smaller. How many blocks a store needs:

  - 34 blocks are the store's own.
  - A block has room for 4,080 bytes of records: 12 and its value for each. A
    million records of 200 bytes take 53,000 blocks if they come by rising keys,
    and 78,000 in random order.
  - Versions share what they have in common: a changed record takes the blocks
    of one path through its tree, from one to eight.
  - Keep a tenth of the blocks spare. Where fewer than 17 are, each change is
    refused: error 13 Full.
  - A merge wants 17 spare blocks for each record that came in, or for each
    change of its own that stays, whichever are fewer. A design without changes
    merges for nothing. Or let the store grow, by run --grow.

docs/OPERATING.md says more.

A session:

  $ altctl create map.alt 1024
  created 1024";

/// What `check` does.
pub const CHECK: &str = "\
Opens a store for reading alone, changes nothing, and prints how many
alternatives, checkpoints and free blocks it has.";

/// The file that `check` opens.
pub const CHECK_FILE: &str = "The file or block device, which need not be one that may be written";

/// When to check a store.
pub const CHECK_AFTER: &str = "\
Every block that a version needs is read and tested, just as at the beginning of
a run, so a store that is checked without a refusal can be run, where it may be
written. When to use it:

  - after a crash of the machine, before the store is used again
  - before a copy, so that a good copy is not replaced by one of a damaged store
  - after a restore

A refusal is printed as by altctl run: 18 Damaged BLOCK names the first block at
which something wrong was found, 19 NotAStore says that the file is no store. If
it is one of an earlier format, a second line says so. Each further block that
is damaged is named by a line of its own, in rising order, except that what only
damaged blocks lead to is not known. The free blocks are those that a run has
free at its beginning.

A session:

  $ altctl check map.alt
  alternatives 2
  checkpoints 0
  free 989";

/// What `tree` does.
pub const TREE: &str = "\
Opens a store for reading alone, changes nothing, and draws its alternatives as
a tree, each with its checkpoints and what is to be merged and posted.";

/// How to read a drawing.
pub const TREE_AFTER: &str = "\
A line is an alternative, below its parent, or a checkpoint, with * before its
name. They stand in order of creation, the checkpoints of an alternative before
the alternatives under it. The columns of an alternative:

  changed    records changed since its base
  unmerged   records that its parent changed since then: not merged yet
  conflicts  records that both have changed, and differently
  post       whether altctl run would post it: nothing is unmerged

top has no parent, so its columns are -. A refusal is printed as by altctl
check. No name is cut: lines fit 80 columns up to the fourth level under top.

A session:

  $ altctl tree map.alt
  changed unmerged conflicts post
        -        -         -    -  top
        1        0         0  yes  |- north
                                   |  * before
        0        0         0  yes  |  `- pipes
        2        1         1   no  `- south";

/// What `copy` does.
pub const COPY: &str = "\
Opens a store for reading alone, makes the file TO, and copies to it all that
was committed: every alternative, base and checkpoint.";

/// The number of blocks that `copy` takes.
pub const COPY_BLOCKS: &str = "How many blocks TO has: 64 to 67108864 [default: as FROM]";

/// What a copy is for.
pub const COPY_AFTER: &str = "\
A copy is a backup that was read and tested, and a new store of BLOCKS blocks:
smaller, if that is less than FROM has, and larger if it is more. What versions
share stays shared. The blocks in use lie at the beginning of TO in the order of
the trees, so it opens quickly. If BLOCKS is less than are in use, the answer is
13 Full, and no file is made.

TO is for its owner alone to read and write. It is made as TO.part, and gets its
name once all was copied and synced: if a copy fails or is killed, there is no
TO. If there is a TO.part then, remove it before the next copy.

A session:

  $ altctl copy map.alt small.alt 256
  copied 256, 35 used";

/// What `run` does.
pub const RUN: &str = "\
Opens a store and answers the lines of the standard input, one after another,
until it ends. What was not committed is gone then.";

/// The file that `run` opens.
pub const RUN_FILE: &str = "The file, as altctl create has made it";

/// What `--no-lock` does.
pub const NO_LOCK: &str = "\
Takes no lock: the caller holds it, or there are no locks";

/// What `--wait` does.
pub const WAIT: &str = "\
Waits while another process uses the file";

/// How many blocks `run` keeps in memory.
pub const RUN_CACHE: &str = "How many blocks stay in memory: 0 to 65536";

/// The size of its write-back buffer.
pub const RUN_BUFFER: &str = "How many written blocks wait: 0 to 65536 [default: by size]";

/// That a refused line ends `run` or `do`.
pub const STRICT: &str = "Ends with the first line that is refused, with status 4";

pub const READ_ONLY: &str = "Only read FILE, and refuse each command";

pub const GROW: &str = "Grow where a line would be answered 13 Full";

pub const GROW_TO: &str = "Grow so, up to N blocks";

/// What `do` does.
pub const DO: &str = "\
Opens a store and answers the lines that the words are, one after another, as
altctl run does. What was not committed is gone then.";

/// The lines that `do` answers.
pub const DO_LINE: &str = "A line, as altctl run answers it";

/// What a refused line means to `do`.
pub const DO_AFTER: &str = "\
Where a line is refused, the status is 4. The lines after it are answered all
the same, unless --strict is given: then it is the last. So with one commit, as
the last line, all of them are made last, or none is:

  altctl do --strict map.alt 'put top 7 1 duct' 'put top 7 2 pipe' commit

A line that begins with - is given behind --. altctl run --help lists all lines
and answers.

A session:

  $ altctl do map.alt 'put top 7 1 cable%20A' 'get top 7 1' commit
  ok
  value cable%20A
  ok";

/// The lines that `run` answers.
pub const RUN_AFTER: &str = "\
Lines, by what they are about, each with what it does and its answer:

  Records
    put ALT TABLE NUMBER VALUE  gives a record a value: ok
    remove ALT TABLE NUMBER     takes a record out: ok

  Alternatives
    new NAME PARENT             adds an alternative under a parent: ok
    new NAME PARENT CHECKPOINT  adds one from a checkpoint of its parent: ok
    drop ALT                    takes an alternative out: ok

  Checkpoints
    checkpoint ALT NAME         names the present state: ok
    back ALT NAME               goes back to a checkpoint: ok
    uncheck ALT NAME            takes a checkpoint out: ok

  Merging
    merge ALT SETTLEMENT ..     brings in what changed in the parent:
                                ok N, with the number of records changed
    post ALT                    makes its state the parent's: ok

  Store
    commit                      makes all changes durable: ok
    rollback                    undoes all since the last commit: ok
    reclaim                     frees each block that no version needs: ok
    grow BLOCKS                 lengthens the store to BLOCKS in all: ok
    free                        the number of free blocks: free N
    blocks                      the number of all blocks: blocks N

  Queries
    get AT TABLE NUMBER         reads a record: value VALUE, or none
    tally ALT                   how far it is from its base and its parent:
                                tally CHANGED UNMERGED CONFLICTS yes, or no
                                where a post would be refused
    list AT                     all records:
                                record TABLE NUMBER VALUE for each
    list AT TABLE               the records of a table, in the same way
    list AT TABLE FIRST LAST    those with a number from FIRST to LAST
    next AT TABLE NUMBER COUNT  the first COUNT records at or after that key
    alts                        all alternatives:
                                alternative NAME PARENT for each
    checks ALT                  the checkpoints of an alternative:
                                checkpoint NAME for each
    changes ALT                 what changed since the base:
                                change TABLE NUMBER BEFORE AFTER for each
    diff AT AT                  what differs from the first to the second:
                                change TABLE NUMBER BEFORE AFTER for each
    diff AT AT TABLE            what differs in a table
    diff AT AT TABLE FIRST LAST what differs at its numbers from FIRST to LAST
    conflicts ALT               what is in conflict with the parent:
                                conflict TABLE NUMBER BASE PARENT MINE for each

From list on, an answer ends with a line end N, with the number of lines before
it. In these lines ~ stands for no value or no parent.

AT is ALT for what the alternative shows, ALT@ for its base, and ALT@CHECKPOINT
for the records of a checkpoint.

The first alternative is top. A name, ALT and PARENT too, has 1 to 32 ASCII
letters, digits, _, - and . in it. TABLE is a number from 0 to 65535, NUMBER one
from 0 to 18446744073709551615. A VALUE has up to 4,000 bytes; % and two
hexadecimal digits are one byte, as in cable%20A, and - is the empty value. A
merge has a SETTLEMENT for each record in conflict, TABLE:NUMBER=mine or
TABLE:NUMBER=theirs; all=mine or all=theirs before them settles each other one.
A line that is empty or begins with # has no answer.

BLOCKS is how many blocks the store is to have: more than it has, and at most
67108864. Type grow and then commit: the new blocks can be used at once, and
from that commit on the store keeps them.

A line that is refused changes no record. Its answer is error, a number and a
name:

  Not there         1 NoSuchAlternative, 3 NoSuchCheckpoint, 5 NoSuchRecord
  There already     2 AlternativeExists, 4 CheckpointExists
  Not possible      6 IsTop, 7 HasChildren
  Merge first       8 NotMerged
  Settlements       9 Unsettled COUNT, 10 NotInConflict TABLE:NUMBER,
                    11 SettledTwice TABLE:NUMBER
  No room           12 TooMany, 13 Full, 14 Deep
  Not a larger size 21 BadSize
  Device, memory    15 Device, 16 Memory, 18 Damaged BLOCK
  The line itself   22 BadLine WHY, 23 LongLine, 24 ReadOnly

With --strict the first line that is refused is the last, and the status is 4.
Where 15 Device answers a change, or a grow for which the disk has no room, the
run ends: what was committed is there at the next one, and a commit that was
answered so may be. docs/OPERATING.md says what helps in each case.

A session, where each line after > is typed, and its answer stands below it:

  $ altctl run map.alt
  > new a top
  ok
  > put top 7 1 duct
  ok
  > put a 7 1 cable%20A
  ok
  > merge a
  error 9 Unsettled 1
  > conflicts a
  conflict 7 1 ~ duct cable%20A
  end 1
  > merge a 7:1=mine
  ok 0
  > post a
  ok
  > get top 7 1
  value cable%20A
  > commit
  ok";

/// What `serve` does.
pub const SERVE: &str = "\
Opens a store and answers the lines of the standard input, one after another,
until it ends. Each change, and each batch of lines from begin to commit, takes
effect as a whole or not at all, and is durable before it is answered.";

/// What `--planners` does.
pub const PLANNERS: &str = "\
Lines of many planners, each with its number before it:
join N, line N LINE, later N LINE, go, leave N";

/// The lines that `serve` answers.
pub const SERVE_AFTER: &str = "\
The lines of altctl run, and:

  begin   begins a batch: ok
  commit  carries out the lines since begin and commits them: an answer to each
          of them, and to the commit ok
  abort   forgets them, as rollback does: error 92 Aborted to each of them, ok

A change outside of a batch is a batch of its own. If a line of a batch is
refused, nothing of the batch is done: that line is answered so, and each other
one, the commit too, error 91 NotDone N, with the number of that line. A batch
has changes only: 93 NotInBatch answers a query. It has up to 100,000 lines and
64 MiB: 94 TooLarge answers more. If the input ends within a line, that line is
answered 96 HalfLine; if it ends within a batch, the batch is forgotten.

Where 101 Unsure answers a commit, its sync failed, and the run ends: the next
one shows whether the batch was committed.

With --planners each planner N has batches of its own, and is answered behind a
line @N; @0 is nobody. 106 NoSuchPlanner answers one who has not joined, and 107
PlannerExists a second join. --strict then ends nothing, but makes the status 4.

  line N LINE   takes LINE, with the answers above
  later N LINE  the same, but the batch that LINE ends waits, with no answer yet
  go            carries out all that waits, with one commit, and answers it;
                then ok to @0

All that waits is carried out before any line of a planner whose batch waits,
too. If one batch is refused, the others are committed all the same. If the
input ends, what waits is forgotten: 92 Aborted to each line and commit.

A session, where each line after > is typed, and its answer stands below it:

  $ altctl serve map.alt
  > begin
  ok
  > put top 7 1 duct
  > remove top 7 9
  > commit
  error 91 NotDone 2
  error 5 NoSuchRecord
  error 91 NotDone 2
  > put top 7 1 pipe
  ok";
