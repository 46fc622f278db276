//! What the program prints about its commands for help, in at most 80 columns.

pub(super) const STATUSES: &str =
    "'tlog help COMMAND' prints what a command reads and prints, and an example.

Exit status: 0 done; 1 refused; 2 wrong arguments or a call for help; 3 a device
failed; 4 a log forked. A refusal is one line 'tlog: ..' on standard error.";

pub(super) const HEAD: &str =
    "Input: the entries of the log, one a line, at most 64 MiB in all and 65,535
bytes a line. A last line without a newline counts if it isn't empty.

Output: the text of the checkpoint (C2SP tlog-checkpoint), a line each: the
origin, the number of entries, and their Merkle tree hash (RFC 6962) in base64.

Exit status: 0 done; 1 refused (input too large, an entry too long, a bad
origin, out of memory); 2 wrong arguments or a call for help; 3 a read or a
write failed.

Example: tlog head --origin example.com/log < list";

pub(super) const BUILD: &str = "Input: the entries of the log, one a line, as for 'tlog head'.

Output: a line 'PATH LENGTH' for each resource of the log (C2SP tlog-tiles): its
tiles, its entry bundles and its checkpoint. With --get the bytes of one
resource. With --dir or --bucket all of them are written there, where no log may
be yet, and the output is 'SIZE ROOT'.

The checkpoint is a signed note. --key is the file of the private key, as
'tlog keygen' prints it; its name is the origin. --secret is for demonstrations:
it signs by HMAC with SHA-256. One of the two is given.

Exit status: 0 done; 1 refused (a bad key, a bad origin, no such path, not
there, a log there already, input too large, an entry too long, out of memory);
2 wrong arguments or a call for help; 3 a read or a write failed.

Example: tlog build --origin example.com/log --key key --dir log < list";

pub(super) const APPEND: &str =
    "Input: entries, one a line, each of at most 65,535 bytes. The input has no
limit. A last line without a newline counts if it isn't empty.

Appends them to the log in a folder or a bucket. The log has to be there; with
--new it begins, and none may be there. Its files are the log's resources (C2SP
tlog-tiles), which any web server can serve. It is published after each N
entries of --batch, and at the end: tiles and bundles are written before the
checkpoint, so a crash at any moment leaves a checkpoint with all that it needs.
Run again, it goes on from there. If the folder says that more entries were
published than its checkpoint has, it goes on only with --older, which says that
nobody saw what came after. One process at a time works on a folder.

In a bucket, of a store of the S3 kind, requests are signed with the key in the
file of --credentials, its name and its secret on a line each, or in
AWS_ACCESS_KEY_ID and AWS_SECRET_ACCESS_KEY. Several may append to one bucket:
who comes second ends ('another operator has appended'), and can start again.

Output: 'SIZE ROOT' for each publication, once it outlasts a crash.

Exit status: 0 done; 1 refused (no log there, or one with --new, a bad key, a
bad origin, a bad checkpoint, an older one, a bundle not there, an entry too
long, in use, the operator refused, signing failed, out of memory); 2 wrong
arguments or a call for help; 3 a read or a write failed.

Example: tlog append --origin example.com/log --key key --dir log --new < list";

pub(super) const INCLUSION: &str = "Input: the entries of the log, one a line, as for 'tlog head'.

Output: lines 'inclusion', 'index I', 'size N', 'leaf HASH', 'root HASH', and
the hashes of the proof (RFC 6962, section 2.1.1), one a line, the one nearest
to the leaf first. Hashes are in base64. 'tlog check' reads it.

Exit status: 0 done; 1 refused (no line at the index, input too large, an entry
too long, out of memory); 2 wrong arguments or a call for help; 3 a read or a
write failed.

Example: tlog inclusion --index 1 < list | tlog check";

pub(super) const CONSISTENCY: &str = "Input: the entries of the log, one a line, as for 'tlog head'.

Output: lines 'consistency', 'old M', 'oldroot HASH', 'size N', 'root HASH', and
the hashes of the proof (RFC 6962, section 2.1.2), one a line. Hashes are in
base64. From 0 lines the proof is empty. 'tlog check' reads it.

Exit status: 0 done; 1 refused (fewer lines than N, input too large, an entry
too long, out of memory); 2 wrong arguments or a call for help; 3 a read or a
write failed.

Example: tlog consistency --old 2 < list | tlog check";

pub(super) const CHECK: &str =
    "Input: the text of a proof, as 'tlog inclusion' and 'tlog consistency' print it;
with --fork the evidence that 'tlog fetch' prints if a log forked.

Output: 'accepted' if the proof is accepted under SHA-256 (RFC 6962, sections
2.1.1 and 2.1.2), else 'refused'. With --checkpoint and --key only if it is
about the tree of that signed checkpoint, of a consistency proof the new one.
With an entry only if it is an inclusion proof of it. Without them 'accepted'
says that the proof is right in itself, and not whose root it has.

With --fork: 'fork of ORIGIN' if the input is two checkpoints that the key
signed, and, if their sizes differ, an accepted consistency proof to the larger
one from another root than the smaller one's; else 'refused'.

Exit status: 0 accepted, or a fork; 1 refused, or no such text, or no checkpoint
that opens, or out of memory; 2 wrong arguments or a call for help; 3 a read or
a write failed.

Example: tlog check --checkpoint cp --key @key.pub --entry 'a dog' < proof";

pub(super) const KEYGEN: &str =
    "Output: on standard output the text of the private key, which is to be kept
secret, and on standard error that of the verifier key, which all may know (C2SP
signed-note; RFC 8032), a line each. With --out nothing is printed: the private
key goes to FILE, which its owner alone may read, and the verifier key to
FILE.pub. Neither may be there. Commands take the verifier key as @FILE.pub.

Exit status: 0 done; 1 refused (a name that is empty or has white space or '+',
a file there already, out of memory); 2 wrong arguments or a call for help; 3 no
random bytes, or a write failed.

Example: tlog keygen --name example.com/log --out key";

pub(super) const OPEN: &str =
    "Input: a note, such as a signed checkpoint (C2SP signed-note, tlog-checkpoint).

Output: what the key signed, if a line of the note is of the key, and the first
such line is valid. Under a log's key that is the note's text. Under a witness's
it is the message of its cosignature (C2SP tlog-cosignature): the lines
'cosignature/v1' and 'time N', in seconds since 1970, and the note's text.

Exit status: 0 it opens; 1 refused (a bad key, malformed input, signed by
another key, signature K wrong, counted from 0, input too large, out of memory);
2 wrong arguments or a call for help; 3 a read or a write failed.

Example: tlog open --key @key.pub < checkpoint";

pub(super) const AUDIT: &str =
    "Input: lines 'old M', M entries, 'new N', N entries, and the hashes of a
consistency proof (RFC 6962, section 2.1.2) from the first list to the second in
base64, one a line.

Output: 'extends' if the proof is accepted under SHA-256 and the first list is a
prefix of the second; else 'not accepted', or 'collision' and in hexadecimal two
different byte strings with one SHA-256, a line each.

Exit status: 0 extends; 1 another answer, no such text, or out of memory; 2
wrong arguments or a call for help; 3 a read or a write failed.

Example: printf 'old 0\\nnew 1\\na cat\\n' | tlog audit";

pub(super) const SERVE: &str =
    "Input: the entries of the log, one a line, as for 'tlog head'. With --follow or
--add they are published as they come, and the input has no limit: a line that
is too long is left out ('line N too long'), and its end is reported ('input
ended').

Serves the log over HTTP (C2SP tlog-tiles, tlog-checkpoint). Standard error has
a line 'listening ADDRESS', and one for each publication, 'published SIZE ROOT',
for the end, 'closed SIZE', and before a refusal for the lines that aren't in
the log, 'lines not published: N'. With --note the first lines are the entries
of that signed checkpoint. With --dir or --bucket the log is there, as that of
'tlog append': it has to be, or with --new it begins. Requests are answered with
what is there, and a publication is shown once it outlasts a crash.

With --add an entry of at most 65,535 bytes is posted to /add, and answered with
its index, once it is published. One that isn't published a second before the
time of its connection is over is answered 503, and can be posted again: one of
the last N of --remember has its first index.

With --witness each checkpoint is kept in the folder as a proposal, sent to the
witness (C2SP tlog-witness), and shown once --need of them have cosigned it.
Until then what was shown before stays. Why a witness hasn't cosigned is
reported, 'witness NAME: ..', and it is asked again 1 to 60 seconds later.
--witnesses names them by a policy (C2SP tlog-policy): each witness of its
quorum that has a URL is asked, and the quorum has to be satisfied.

Exit status: 0 done; 1 refused (no log there, or one with --new, a bad key, a
bad origin, input too large, an entry too long, fewer lines than the note's
size, a bad checkpoint, an older one, a bundle not there or damaged, in use, the
operator refused, signing failed, out of memory); 2 wrong arguments or a call
for help; 3 a read, a write, the address or an accept failed.

Example: tlog serve --origin example.com/log --key key --dir log --new --add \\
             --listen 127.0.0.1:8080";

pub(super) const WITNESS: &str =
    "Input: what an earlier run printed, a line for each checkpoint that it cosigned;
with --state it is in that file.

Serves a witness of one log, or of many, over HTTP (C2SP tlog-witness,
tlog-cosignature). Standard error has a line 'listening ADDRESS'.

Output: a line for each new checkpoint that it cosigns, before it answers: size,
root, the hashes of the proof from the one before, and the log's name. With
--state each line is written to the file, and outlasts a crash, before the
answer. The file has to be there, or with --new it begins. With --compact it is
first replaced, as a whole, by one line of each log.

One log, --origin, is known by --log-key or, for demonstrations, by --secret.
With --logs the logs are those of a file that is read once, at the start: a line
for each key, the text of a verifier key, for the log of its name, or a log's
name, a space and that text. Empty lines and those that begin with '#' are
passed over. Or the file is a list as logs are published, 'logs/v0', with lines
'vkey KEY' and 'origin NAME'. The witness cosigns by the key in the file of
--key, as 'tlog keygen --cosigner' prints it, or, for demonstrations, by --name
and --witness-secret.

Exit status: 0 done; 1 refused (no state there, or one with --new, a bad key, a
bad origin, a bad name, line K of the logs malformed or with a key again,
counted from 1, chain K of the input refused, counted from 0, in use, out of
memory); 2 wrong arguments or a call for help; 3 a read, a write, the address or
an accept failed.

Example: tlog witness --origin example.com/log --log-key @key.pub \\
             --key witness-key --state cosigned --new --listen 127.0.0.1:8081";

pub(super) const FETCH: &str =
    "Fetches the log's checkpoint, tiles and entry bundles (C2SP tlog-tiles) from a
folder or over HTTP, and trusts none of them: the checkpoint opens under a key
of the log (C2SP signed-note), --need of the witnesses cosigned it (C2SP
tlog-cosignature), it extends the one in the file of --state by a consistency
proof, and tiles and entries are those of its root (RFC 6962). A checkpoint that
passes is kept in that file, with --all once the entries are printed.

Output: what is wanted, as below. With --all each entry is checked before it is
printed, and one that has a newline or begins with a backslash comes after a
line with a backslash and its length in bytes. How far --all has printed is kept
in a file with the name of --state and '.printed' behind it.

If the log forked, evidence for 'tlog check --fork' is printed: the checkpoint
of the state, the new one, and, if their sizes differ, a consistency proof from
another root than the smaller one's. An older checkpoint accuses nobody: nothing
is printed, and the state stays.

--key is given twice while the log goes from one key to another. Keys of
witnesses with one name are one witness's, which counts once. --policy stands in
their place: the log is the first of the policy whose URL is --from, or else the
first of all, and the witnesses that cosigned have to satisfy the quorum. With
--fresh a checkpoint is refused if no witness cosigned it in the last so many
seconds: so a log that is held back is told from one that rests.

Exit status: 0 done; 1 refused (a bad policy, a bad key, a second key that isn't
another one of the log, a witness with the key of another or of the log, a bad
address, no checkpoint that opens, checkpoint of another log, cosigned by N
witnesses, or by N, K wanted, no entry at the index, a tile, a bundle or an
entry wrong, bad state, out of memory); 2 wrong arguments or a call for help; 3
not available, an older checkpoint, one not cosigned since a time, or a read or
a write failed; 4 the log forked.

Example: tlog fetch --from http://example.com/log --key @key.pub \\
             --state seen --all";

pub(super) const FEED: &str =
    "Reads the log's checkpoint as 'tlog fetch' does, and asks each witness to
cosign it (C2SP tlog-witness, tlog-cosignature), at its --to, with the proof
from the size that it has. The first --to is the address of the first witness,
and so on. Keys with one name, one --witness after another, are one witness's,
which is asked and counts once.

Output: the checkpoint with the lines of all witnesses that cosigned this very
one, if they are --need. If the log forked, evidence, as 'tlog fetch' prints it.
Why a witness gave no cosignature is reported on standard error, a line
'tlog: witness K: ..' each, counted from 0.

--policy stands in the place of --key, --to, --witness and --need: the log is
that of 'tlog fetch', each witness of the policy that has a URL is asked there,
and the lines have to satisfy the quorum.

Exit status: 0 done; 1 refused (as 'tlog fetch'; cosigned by N witnesses, or by
N, K wanted); 2 wrong arguments or a call for help; 3 not available, an older
checkpoint, or a read or a write failed; 4 the log forked.

Example: tlog feed --from http://example.com/log --key @key.pub \\
             --to http://127.0.0.1:8081 --witness @witness.pub";

pub(super) const PROVE: &str =
    "Fetches the log's checkpoint, and the tiles and the bundle of the entry, from a
folder or over HTTP, and trusts none of them: the checkpoint is one that the
policy trusts, and everything else is checked against it.

Output: the proof (C2SP tlog-proof), which 'tlog verify' accepts under the same
policy: the index, the hashes of the inclusion proof, and the signed checkpoint.
Without --index the bundles are looked through, the last one first.

FILE of --policy has lines 'log VKEY', 'witness NAME VKEY', 'group NAME K
MEMBER..' and 'quorum NAME', or 'quorum none' (C2SP tlog-policy). With --sha256
the entry is the text 'sha256 HEX', and a space and --name if that is given.

Exit status: 0 done; 1 refused (a bad policy, signed by no log of the policy,
cosigned by N, K wanted, no such entry, a tile, a bundle or an entry wrong, out
of memory); 2 wrong arguments or a call for help; 3 not available, or a read or
a write failed.

Example: tlog prove --from http://example.com/log --policy policy \\
             --index 7 > entry.tlog-proof";

pub(super) const VERIFY: &str =
    "Input: a proof (C2SP tlog-proof), as 'tlog prove' and 'tlog submit' print it. No
network is needed.

Output, if the proof is accepted: 'accepted SIZE INDEX', and for each witness of
the policy that cosigned the checkpoint 'witness NAME TIME', in seconds since
1970. It is accepted if a log of the policy signed the checkpoint, the witnesses
that cosigned it satisfy the quorum, and the entry is at the index. The entry is
then there in every list of that size and root.

FILE of --policy and the entry of --sha256 are as for 'tlog prove'.

Exit status: 0 accepted; 1 refused, for the reason on standard error (a bad
policy, a line of the proof wrong, signed by no log of the policy, cosigned by
N, K wanted, the entry is another one, out of memory); 2 wrong arguments or a
call for help; 3 a read or a write failed.

Example: tlog verify --policy policy --sha256 release.tar.gz \\
             < release.tlog-proof";

pub(super) const SUBMIT: &str =
    "Posts the entry to the log, which takes entries ('tlog serve --add'), waits
until a checkpoint that the policy trusts has it, and prints the proof.

Output: the proof (C2SP tlog-proof), which 'tlog verify' accepts under the same
policy. On a terminal standard error says when the log has taken the entry.

FILE of --policy and the entry of --sha256 are as for 'tlog prove'. Run again,
it posts the entry again; 'tlog prove' makes a proof of one that is there.

Exit status: 0 done; 1 refused (a bad policy, a bad address, signed by no log of
the policy, cosigned by N, K wanted, an entry wrong, out of memory); 2 wrong
arguments or a call for help; 3 the log didn't answer or not in time, or a read
or a write failed.

Example: tlog submit --to http://example.com/log --policy policy \\
             --sha256 release.tar.gz > release.tlog-proof";
