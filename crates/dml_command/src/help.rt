//! The texts that help shows.

pub const ABOUT: &str = "Carries out memory jobs of a data mover in software, over an image of \
memory in pages of 4096 bytes";

pub const EXAMPLE: &str = "To try it, put these lines into a file, as first.script:
  image 2
  page 0
  fill 0x0807060504030201 4090 12
  show 4088 10
and type:
  dmljob run < first.script

Exit status: 0 done, 2 the script has a fault, 3 the command line is refused, 4 out of memory, or \
the script cannot be read or the answer cannot be written.";

pub const RUN: &str =
    "Carry out the script on the standard input, and print what its jobs answer and \
its lines show";

pub const WORKERS: &str =
    "The most workers for a list of jobs, 1 to 16; successive jobs of a script are a list, and so \
is each batch; no answer depends on it";

pub const CHUNK: &str =
    "How many bytes one task of a list covers, a multiple of 8 from 8 to 1048576; no answer depends \
on it";

pub const ARENA: &str = "How many bytes the staging arena has, 0 to 16777216";

pub const SCRIPT: &str = "The lines of a script; numbers are decimal, or hexadecimal after 0x:
  image P                        an image of P pages, none of them present; the first line
  page N [HEX]                   make page N present, with the bytes of HEX and then zeros
  poke ADDR HEX                  write bytes, which must be present
  noop                           a job that does nothing
  move SRC DST N                 a job that moves N bytes; the ranges may overlap
  fill PATTERN DST N             a job that fills N bytes from DST on with an 8-byte pattern
  compare SRC SRC2 N             a job that compares N bytes at two places
  compare-pattern SRC PATTERN N  a job that compares N bytes with an 8-byte pattern
  create SRC SRC2 N DELTA MAX    a job that writes a record of how N bytes at SRC2 differ
                                 from those at SRC, MAX bytes at most, to DELTA
  apply DELTA SIZE DST N         a job that writes what a record of SIZE bytes says into
                                 the N bytes at DST
  dualcast SRC DST DST2 N        a job that copies N bytes to two places
  raw HEX                        the job of a descriptor of 64 bytes
  batch                          the jobs from here to the end are one batch, 1024 at most
  end                            the end of a batch
  show ADDR LEN                  show LEN bytes from ADDR on, as -- where they are absent
A line of a job, but raw, may end with: flags F. One of compare, compare-pattern or create may have
before that: check E; its status is then 02 where its result is not E (of create: where the bit of
its result is not set in E), unless the job is refused or meets an absent byte. A job of a batch with
flag 1, the fence, waits for all before it; where one of these has another status than 01, it and all
later jobs of the batch are abandoned, with status 00. A line that begins with # is a comment.

For example, with the script in the file first.script:
  dmljob run --workers 2 < first.script";

pub const DECODE: &str =
    "Show the fields of a descriptor, and whether its job is accepted with the \
default arena";

pub const HEX: &str = "The 64 bytes of the descriptor, as 128 hexadecimal digits in either case";

pub const DESCRIPTOR: &str = "For example, a move of 100 bytes from 4096 to 8192:
  dmljob decode 000000000c0000030000000000000000001000000000000000200000000000006400000000000000\
000000000000000000000000000000000000000000000000
prints
  opcode 03 flags 00000c source 4096 target 8192 size 100 extra 0 delta 0 expected 0
  check accepted need 100";
