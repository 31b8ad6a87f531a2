//! The texts of `--help` and `--version`.

/// The program's version. The script `blobfs` adds the kit that built it.
pub const VERSION: &str = "blobfs 0.1.0\n";

/// Every command that there is, the device words, the statuses and an example.
pub const HELP: &str =
    "blobfs: a volume of blobs that are written once and named by their Merkle roots

usage:
  blobfs root               print the Merkle root of the input, of at most 67108864 bytes
  blobfs DEVICE COMMAND     do a command on a device
  blobfs --help             print this text
  blobfs --version          print the version; the script ./blobfs adds the kit that built it

commands:
  root             the same as without a device
  format B N J     make an empty volume of B data blocks, N nodes and J journal blocks, version 1
  format2 B N J    the same, version 2
  list             print ROOT SIZE for each blob, in the order of the roots
  check            print everything that is wrong with the volume
  recover          put in place what the journal holds, and print how many entries that were
  upgrade          recover, and make a volume of version 1 one of version 2; its blobs stay
  script           run the script of the input on the volume, and print what came of each line
  fresh B N J      make an empty volume, version 1, and run the script of the input on it
  fresh2 B N J     the same, version 2
  demo N           make a volume of 4096 1024 64, run a stated script of N rounds, 1 to 32, and
                   print a summary

list and check write nothing to the device. check tests each blob's bytes against its root: a blob
whose tree alone is damaged is found clean, though it can't be read window by window.

A script has a command a line, each of a session from 0 to 15; a session does its lines in order:
  S add DATA          add a blob                    S scan SLOT      verify the whole blob
  S open SLOT NAME    have a slot hold a blob       S close SLOT     empty the slot
  S read SLOT OFF LEN read bytes of it              S unlink NAME    unlink a blob
  S sync              make all durable              S list           list the blobs
DATA is hex:DIGITS, fill:BB:LEN or seq:BASE:LEN, NAME a root or DATA. The input is read before the
device is touched. A script has at most 1048576 bytes and 4096 lines.

A number is written in decimal digits without a leading zero, at most 18 of them.
Version 1 has 2 to 1048576 data blocks and 128 to 32768 nodes, version 2 up to 4194304 and 65536.
The nodes are a multiple of 128. The metadata takes M = 1 + ceil(B / 65536) + N / 128 blocks,
the journal has M + 3 to 65536, and the device at least M + J + B. A block has 8192 bytes.

devices:
  mem:BLOCKS         1 to 65536 zero blocks in memory, which are gone afterwards
  new:BLOCKS:PATH    a new file of 1 to 8388608 zero blocks; a file that is there stays as it is
  file:PATH          the whole blocks of a file or block device that is there
A new file stays, whatever comes of the command. While a command writes a file, no other may have
it: the file is locked, and refused with status 5. root, list and check read it together.

The exit status is the status:
  0  done
  1  the words are none of the forms above
  2  the input is too long, or is no script
  3  the input could not be read
  4  the output could not be written
  5  the device failed, also under a session, or the file could not be opened, made or locked
  6  there is no volume, the counts are out of their limits, or the device is too short
  7  there was no memory
  8  check found damage, or a session read something damaged
At 1, 2, 3, 5, 6 and 7 one line on standard output says which, but at 5 where a script's text is
printed. At 3, 4 and 5 one line on standard
error says why, where the system said so.

A pipe that nobody reads is status 4. A file at its size limit ends the program by SIGXFSZ, and is
status 5 where that signal is ignored, as the script ./blobfs has it. Where that script can't build
the program, it ends with status 125.

example:
  printf hi | blobfs root
  blobfs new:83:disk.img format 64 128 16
  printf '0 add hex:6869\\n0 sync\\n' | blobfs file:disk.img script
";
