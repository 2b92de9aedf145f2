//! The texts of help, and which words ask for them.

ghost use Rattle.std.specs.Prelude.{◌≡◌, ◌||◌, codes};
ghost use Rattle.std.specs.Option.{option_map};
ghost use Rattle.std.specs.Str.{bytes_eq};
ghost use Rattle.ingest_run.specs.Helps.{are_help as are_help_words, help_of};
ghost use Rattle.ingest_run.specs.Words.{texts};

/// `--help`, `-h` and `help`.
pub const SERVER: &str = "\
ingest_server - takes in pictures or finished ProRes frames and writes an MXF
file of them, closes takes after a stop, and looks at the file of a take

Usage: ingest_server COMMAND
       ingest_server --help | --version

Commands:
  wrap     read a feed of finished frames on standard input and write one
           closed MXF OP1a file of them to standard output
  encode   read a feed of pictures on standard input and write one closed MXF
           OP1a file of their ProRes frames to standard output
  recover  close the take in a folder after its recorder stopped, and say in
           one line how it was found
  check    read the file of a take in a folder, judge whether it is a closed
           MXF OP1a file, and say in one line what it holds
  frame    read the file of a take in a folder and write the samples of one of
           its pictures to standard output

Help:
  -h, --help, help    print this text
  COMMAND --help      print what the command reads and writes
  --version           print the version

wrap and encode read their input once, from the first byte to the last. In
memory they keep room for one frame, encode for the longest one and for a
picture too, 24 bytes for each frame, and a buffer for what stands between
frames. Where the input breaks off or breaks its form, or where a frame is
refused, the file of the whole frames before that place has been written.
recover, check and frame read no input, and check and frame write to no file.

Exit status, with the number that stands behind `refusal` in the fault line:
  0    everything was read, and everything was written
  1    memory ran out (1)
  2    the words are no command with its options (0)
  3    the feed breaks its form:
         110  the head: the magic bytes or a field of the configuration
         111  an item does not begin with UNIT, or for encode with PICT
         112  the feed ends inside its head or inside an item
         114  the feed is longer than 2^44 bytes
         115  a sample is above 1023 (encode)
         116  a frame is longer than 2^28 bytes (wrap)
  5    standard input could not be read (113)
  6    a file of a take could not be read, or by recover written (83)
  7    standard output could not be written (117)
  8    something that was read is refused:
         73   the file is not a closed OP1a file (check, frame)
         80   the commits do not begin with those of a take (recover)
         81   a commit is damaged, or the file is not what they say (recover)
         93   the file has no frame of this number (frame)
       a frame of wrap, or the frame that frame was asked for:
         30   it has fewer bytes than the least frame header
         31   its bytes 4 to 7 are not icpf
         32   its frame size is not the number of its bytes
         33   its header is too short for what it holds, or passes the frame
         34   its bitstream version is above 1
         35   its chroma format is not 4:2:2
         36   its interlace mode is the reserved one
         37   its width or height is one that no recording may have
         38   it has an alpha channel
         40   a coded picture is too short for its header and its slice table,
              or passes the frame
         41   a slice passes its coded picture
         42   its width, height or interlace mode is not the configured one
              (wrap)
       the frame that frame was asked for:
         39   it loads one of the two quantisation matrices alone
         20   a slice has fewer than six bytes
         21   the header size of a slice is out of range
         22   the quantiser index of a slice is out of range
         23   the parts of a slice pass it
         11   the bits of a slice's part end inside what is due
         12   a code in a slice has more than 32 bits
         24   a run in a slice passes the last level
         25   a product in a slice is above 2^22
  10   the feed has more frames or pictures than its configuration allows (95)

Where the status is not 0, standard error has the line
  ingest_server: status C refusal N at A other O
A is the byte of the input at which a feed breaks its form, counted from 0.
For 30 to 41 it is the byte of the frame (for 30 the frame's length), and of
wrap O is the frame's number, both counted from 0. For 73 it is the byte of
the file, and O the clause that is broken. For 80 and 81 it is the byte of the
file O: 0 is take.mxf, 1 take.commits. For 93 it is the number of frames of the
file, and O the one that was asked for. For 20 to 25, 11 and 12 it is
the slice, and O the frame, both counted from 0. For status 10 it is the
number of frames that the configuration allows, and for 5, 6 and 7 the number
of faults.
";

/// `wrap --help` and `wrap -h`.
pub const WRAP: &str = "\
ingest_server wrap - write finished ProRes frames as one MXF OP1a file

Usage: ingest_server wrap < FEED > FILE.mxf

Reads from standard input a feed of units:
  8 bytes    PRFEEDU1
  64 bytes   the configuration: size, rate and limits of the recording
  then, for each frame, the four bytes UNIT, its length in four bytes, the
  highest first (at most 2^28), and the frame itself

Writes to standard output:
  the header partition
  body partitions, each of as many frames as the configuration says: an index
  of the frames of the partition before, and each frame, unchanged, as a
  picture element
  the footer partition with the durations and the index of the last frames
  the random index pack
No byte is written twice: a frame can be read as soon as it was written.

Options: none. Of each frame the headers and the slice tables are read, and
the size and the interlace mode must be the configured ones. What stands in a
slice is passed on unread.

Where the feed breaks off or breaks its form (status 3), where a frame is
refused (status 8), where the feed has more frames than its configuration
allows (status 10), or where reading fails (status 5), the file of the whole
frames before that place is closed and has been written. Where the first 72
bytes are cut or wrong, nothing is written.
`ingest_server --help` lists the statuses.
";

/// `encode --help` and `encode -h`.
pub const ENCODE: &str = "\
ingest_server encode - encode pictures as ProRes frames in one MXF OP1a file

Usage: ingest_server encode --workers N < FEED > FILE.mxf

Reads from standard input a feed of pictures:
  8 bytes    PRFEEDP1
  64 bytes   the configuration: size, quantisation, rate and limits
  then, for each picture, the four bytes PICT and its samples, 0 to 1023, each
  in two bytes, the highest first: Y, then Cb, then Cr, each row by row, all of
  the configured width and height, Cb and Cr of half the width

Writes to standard output the file that `wrap` writes, of the frame of each
picture. No byte is written twice: a frame is written before a byte of the
next picture is read.

Options:
  --workers N    how many threads encode a picture, from 1 to 64; must be
                 given. The file is the same for each N.

Where the feed breaks off or breaks its form (status 3), where it has more
pictures than its configuration allows (status 10), or where reading fails
(status 5), the file of the frames of the whole pictures before that place is
closed and has been written. Where the first 72 bytes are cut or wrong, nothing
is written.
`ingest_server --help` lists the statuses.
";

/// `recover --help` and `recover -h`.
pub const RECOVER: &str = "\
ingest_server recover - close the take in a folder after its recorder stopped

Usage: ingest_server recover --dir FOLDER

Reads take.mxf and take.commits in the folder. The commits say how many frames
are durable, and in how many bytes of the file. What stands behind these bytes
is cut, the footer is written, and then the commit that says so. A file that is
not there is judged as an empty one, and is not made.

Writes one line to standard output once all is on the disk:
  closed C bytes B     the take was open, and is closed now
  already C bytes B    it was closed before, and nothing was written
C is the number of frames, and B the number of bytes of the file.

It may be stopped at any moment and run again: no frame is lost that was told
to be durable, and the file that it ends with is the same.

Options:
  --dir FOLDER    the folder of the take; must be given

Where the commits begin with no take (status 8, 80), or where a commit is
damaged or the file is not what they say (81), nothing is written, and the
fault line names the byte, and of which file: 0 is take.mxf, 1 take.commits.
Where a file can't be read or written (status 6), a part of this may have been
done; run it again.
`ingest_server --help` lists the statuses.
";

/// `check --help` and `check -h`.
pub const CHECK: &str = "\
ingest_server check - judge the file of a take, and say what it holds

Usage: ingest_server check --dir FOLDER

Reads take.mxf in the folder, and nothing else. A file that is not there is
judged as an empty one.

Writes one line to standard output where it is a closed MXF OP1a file:
  take U frames C bytes B partitions Q
U is the identifier of the take, in small letters with hyphens, C the number
of its frames, B the number of bytes of the file, and Q the number of its
partitions. The frames themselves are not read.

Options:
  --dir FOLDER    the folder of the take; must be given

Where the file is not a closed OP1a file (status 8, 73), or where reading
fails (status 6), nothing is written. The fault line names the first clause
that is broken, and the byte at which it is.
`ingest_server --help` lists the statuses.
";

/// `frame --help` and `frame -h`.
pub const FRAME: &str = "\
ingest_server frame - write the samples of one picture of a take

Usage: ingest_server frame --dir FOLDER --number N > SAMPLES

Reads take.mxf in the folder, and nothing else. A file that is not there is
judged as an empty one.

Writes to standard output the samples of the picture that frame N means, each
in two bytes, the highest first: Y, then Cb, then Cr, each row by row, Cb and
Cr of half the width.

Options:
  --dir FOLDER    the folder of the take; must be given
  --number N      which frame, from 0; must be given

Where the file is not a closed OP1a file (status 8, 73), where it has no frame
N (93), where the frame is refused (11, 12, 20 to 25, 30 to 41), or where
reading fails (status 6), nothing is written.
`ingest_server --help` lists the statuses.
";

/// Behind the sentence, where the words are no command: the end of its line, and how the program is called.
pub const USAGE: &str = "
usage: ingest_server wrap < FEED > FILE.mxf
       ingest_server encode --workers N < FEED > FILE.mxf
       ingest_server recover --dir FOLDER
       ingest_server check --dir FOLDER
       ingest_server frame --dir FOLDER --number N > SAMPLES
       ingest_server --help
";

/// `--version`.
pub const VERSION: &str = "ingest_server 1\n";

/// The text of help that the words ask for: as the first word, or as the only one behind a command.
pub(crate) fn help_text(words: &[String]) -> Option<&'static str>
    ensures { option_map (λ text. text.now) result ≡ help_of (texts words.now) }
{
    let (first, rest) = words.split_first()?;
    let first = first.as_str();
    if is_help(first) || first == "help" {
        return Some(SERVER);
    }
    if first == "--version" {
        return Some(VERSION);
    }
    if first == "wrap" && are_help(rest) {
        return Some(WRAP);
    }
    if first == "encode" && are_help(rest) {
        return Some(ENCODE);
    }
    if first == "recover" && are_help(rest) {
        return Some(RECOVER);
    }
    if first == "check" && are_help(rest) {
        return Some(CHECK);
    }
    if first == "frame" && are_help(rest) {
        return Some(FRAME);
    }
    None
}

/// Whether the words behind a command ask for its help.
fn are_help(words: &[String]) -> bool
    ensures { result ≡ are_help_words (texts words.now) }
{
    match words {
        [word] => is_help(word.as_str()),
        _ => false,
    }
}

/// Whether a word asks for help wherever it stands.
fn is_help(word: &str) -> bool
    ensures { result ≡ (bytes_eq word.now (codes "--help") || bytes_eq word.now (codes "-h")) }
{
    word == "--help" || word == "-h"
}
