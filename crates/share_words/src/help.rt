//! The texts of help on scripts and on the server.

/// On scripts: an example, the lines and their words, the tariffs, the answers, why a line is refused, and how a run
/// ends.
pub const SCRIPTS: &str = "An example, a script that sends one packet:
  open a 4 1         a flow named a, with room for 4 packets, under tariff 1
  mktkt 10 base      ticket 1, of 10 units of the base currency
  fund 1 flow a      which funds the flow
  send a 6869        a packet of two bytes comes for it
  turn 65535         the link sends its frame
Its answers, with 14 bytes written, which come to 14 on the account of the flow:
  flow 1
  ticket 1
  ok
  packet 1 1
  wrote 1 1 14 whole
  out 4c01000000010000000100026869
Lines of a script, whose words are parted by one space:
  mkcur NAME, rmcur NAME                make or remove a currency
  mktkt AMOUNT NAME, rmtkt TICKET       make or remove a ticket in a currency
  fund TICKET cur NAME                  let a ticket fund a currency
  fund TICKET flow NAME, unfund TICKET  let it fund a flow, or nothing
  amend TICKET AMOUNT                   change the amount of a ticket in its place
  open NAME LIMIT TARIFF, close NAME    open or close a flow
  hold NAME, resume NAME                stop a flow without closing it, and go on
  send NAME HEX                         a packet comes for a flow
  turn BYTES                            the link writes at most that many bytes
  torn                                  the writer is declared failed
  report                                show what the link holds
  audit 1, audit 2                      as the first line: the version of the script,
                                        1 if there is none; no answer
Words of a line:
  NAME    a letter from a to z, then at most 15 of these, 0 to 9, _ or -;
          the currency base is always there
  AMOUNT  1 to 1048576 units of the currency
  TICKET  the number of a ticket
  LIMIT   the most packets in the buffer of the flow, 1 to 1024
  TARIFF  1 to 4
  HEX     a payload of 1 to 1490 bytes, or 9000 in version 2, two digits each,
          0 to 9 or a to f
  BYTES   1 to 65535
Tariffs, by which the bytes written of a flow are posted to its account; a frame
is its packet and 12 bytes more, or 17 in version 2, and is charged the overhead
and whole cells:
  1  cells of 1 byte of 1 unit; 1 for each unit
  2  cells of 48 bytes of 48 units, an overhead of 16 units; 2 for each unit
  3  cells of 1024 bytes of 1024 units; 1 for each unit
  4  cells of 2048 bytes of 2048 units, an overhead of 1024 units; 3 for each unit
Answers:
  ok, ticket TICKET, flow FLOW          it is done
  closed FLOW DROPPED ACCOUNT           a flow was closed
  packet FLOW SEQ                       the packet waits
  wrote FLOW SEQ BYTES whole (or part)  bytes of a frame went out
  torn FLOW SEQ BYTES                   the writer failed after that many of a frame
  idle                                  nothing is to be sent
  no NUMBER NAME                        the line is refused
  out HEX                               at the end: all bytes that were written
Refusals:
   1 NoMemory    memory was refused
   2 Spent       the link has made as many events as its life allows
   3 Syntax      the line is not one that can be read
   4 Range       a number or a payload is out of its range
   5 NoCurrency  no currency has this name
   6 NoTicket    no ticket has this number
   7 NoFlow      no open flow has this name
   8 NoTariff    no tariff has this number
   9 Taken       the name is taken
  10 Base        the base currency can be neither removed nor funded
  11 InUse       a ticket is denominated in the currency, or funds it
  12 Funding     the ticket has a holder
  13 Unfunded    the ticket has no holder
  14 Crowded     the holder is funded by as many tickets as it may be
  15 Cycle       the currency would back itself
  16 Deep        the chain of currencies would be too long
  17 TableFull   the table is full
  18 Sending     a frame of the flow is in part
  19 BufferFull  the buffer of the flow is full
  20 Broken      the link is broken
  21 Held        the flow is held
  22 NotHeld     the flow is not held
Exit statuses:
  0  the script was run to its end; refused lines are no fault
  1  the script could not be read, the output could not be written, or memory
     was lacking; with --strict also: a line was refused. Standard error reports
     which
  2  the words of the command line are wrong";

/// On the server: what it accepts and in which order, how it ends, the lines of control connections, and the statuses.
pub const SERVER: &str =
    "This is one life of one link, without a file and without books. 'stridelink gateway'
connects again when the uplink is lost, keeps books, and runs for months.
Addresses are HOST:PORT; with port 0 the system picks one, which --verbose prints.
Order:
  it makes the journal of the life, tries FILE, listens on A and B, connects to C
  it accepts J control connections, each answered as soon as it is there
  it accepts K ingress connections
  when all connections have ended, and all that came is sent, it writes the audit
  to FILE and the report to standard output
A control connection takes the lines of a script, and answers each by one line, or
by the report; 'stridelink run --help' lists them. Lines of send, turn, torn and
audit have no place there: they are answered 'no 3 Syntax'. So is a line of more
than 20480 bytes. Bytes after the last line feed are dropped.
An ingress connection brings packets: the length of a flow's name in 1 byte, the
name, the length of the payload in 2 bytes, big-endian, and the payload of 1 to 9000
bytes. A connection that sends a malformed or truncated packet is closed.
The uplink gets the frames: the bytes 4c 02, the number of the flow's tariff in 1
byte, that of the flow in 4, that of the packet in 8, the length of the payload in 2,
and the payload. Packets of flows that are held or have no tickets are not sent: they
stay in the report as waiting, and are no fault.
Shares hold at C while flows are offered more than their shares. Each then gets a part
of the units that arrive, the part that its tickets are of all. A limit of 64 packets
or more costs least. Bytes under way in the system's buffers arrive before 'hold',
'resume' and 'amend' are seen at C.
A life lasts for L events: each command that is answered, each packet that came for
a flow, and each write call on the uplink is one, refused commands and packets too.
When it is spent the ingress connections are ended, lines are answered 'no 2 Spent',
and the status is 1.
FILE is a script: 'stridelink run --life L < FILE' prints the very bytes that C got.
A FILE that exists is refused before anything listens, unless --force is given; so is
a link to one. If FILE is a regular file or not there, a file beside it is written,
FILE.1 or the next number that is free, and takes the name FILE at the end; until then
an old FILE stays as it was. An audit that cannot take that name stays where it is,
which standard error names. So does one that finds a new FILE there, without --force.
Anything else, such as a device or a pipe, is written in place.
With --until-eof the end of standard input ends the run: no more connections are
accepted, those that are there give only the bytes that had come, and what was queued
is sent. A reply that can't be written for some seconds then ends its connection,
and an uplink that takes nothing for that long has failed.
A signal, such as that of Ctrl-C, ends the process without an audit, and the file
beside stays.
With --verbose standard error has a line for each address, connection and end, for what
the server waits for, for the loss of the uplink when a write on it fails, and for
packets that are refused: stridelink(1) lists the lines.
Exit statuses:
  0  all connections have ended, and all that came was sent or refused, or waits in
     a flow that is held or has no tickets; refused lines, and the way in which a
     connection ended, are no fault
  1  a fault, which standard error reports in its last line; once connections were
     accepted the audit and the report are written nevertheless
  2  the words of the command line are wrong";

/// On bills: what a book is, what a bill has, and the statuses.
pub const BOOKS: &str =
    "A book is the text of a link's life, with a line for each of its events. Its first line is
'audit 2', and each packet is 'send NAME HEX', with its payload; or its first line is
'lengths 2', and each packet is 'send NAME LENGTH', with the length of its payload. The
lines are run again on a new link. Each has to be what that link does next: a command, a
packet that is taken, or a turn that writes a whole frame of this many bytes.
A bill has a row for each tenant, in the order in which they first appear:
  packets  frames that went out
  bytes    the bytes of these frames
  units    what they were charged, by the tenant's tariff
  amount   units times the price of a unit
Several books are summed. The table ends with the sums of all tenants. A flow of the name
gap is no tenant's. Tariffs are those of 'stridelink run --help'.
A book that is still open can be billed: a last line without its line feed is left out,
and standard error names its file and number.
Exit statuses:
  0  the bill was printed
  1  a line is not what the link does next, which standard error reports as
     FILE:LINE: REASON; a file could not be read; the output could not be written; or
     memory was lacking. No bill was printed
  2  the words of the command line are wrong";
