//! The sources whose cards are decoded.

/// A card for each form of a calculation, over numbers of one, of no and of nine decimals and two texts; then a calculation of two
/// cards and one of three.
pub const CALCULATIONS: &[u8] = b"     FCARDS   IP  F      96            MFCU1
     FPRINT   O   F     132            PRINTER
     ICARDS   AA  01
     I                                        1   51ONE
     I                                        6  100TWO
     I                                       11  14 TEXT
     I                                       15  20 LONG
     I                                       21  359FINE
     C           ONE       ADD  TWO       ONE
     C           ONE       SUB  .5        ONE
     C                     Z-ADDTWO       ONE
     C                     Z-SUBTWO       ONE
     C           ONE       MULT TWO       ONE       H
     C           ONE       COMP TWO                  10
     C                     MOVE TEXT      LONG
     C                     MOVELTEXT      LONG
     C                     SETON                     10
     C                     SETOF                     10
     C           AGAIN     TAG
     C                     GOTO AGAIN
     C           ONE       DIV  TWO       ONE
     C                     MVR            TWO
     C           ONE       ADD  TWO       TWO
     C           ONE       SUB  TWO       TWO       H
     C                     Z-ADDONE       TWO
     C                     Z-SUBONE       TWO       H
     C           TEXT      COMP LONG                 10
     C                     MOVE ONE       LONG
     C                     MOVE TEXT      ONE
     C           FINE      MULT FINE      ONE
     C           TEXT      COMP 'A'                  10
     C                     MOVE 5         LONG
     C   01
     CORN10      ONE       ADD  TWO       ONE
     C   01
     CANN10
     COR 10      ONE       SUB  TWO       ONE
     OPRINT   T        LR
     O                                    5 'TOTAL'
";

/// Calculations without conditions, and ones that have the same condition or others, one of which turns its indicator; a total
/// calculation at last.
pub const RUNS: &[u8] = b"     FCARDS   IP  F      96            MFCU1
     FPRINT   O   F     132            PRINTER
     ICARDS   AA  01
     I                                        1   51ONE
     I                                        6  100TWO
     I                                       11  14 TEXT
     I                                       15  20 LONG
     I                                       21  359FINE
     C           ONE       ADD  TWO       ONE
     C   01                Z-ADDTWO       ONE
     C   01                Z-ADDTWO       TWO
     C  N01                Z-ADDTWO       ONE
     C  N01      ONE       COMP TWO                  01
     C  N01                Z-ADDTWO       TWO
     C                     Z-ADDTWO       ONE
     CLR                   Z-ADDTWO       ONE
     OPRINT   T        LR
     O                                    5 'TOTAL'
";

/// Calculations that turn other indicators than those of their conditions, and one that has one condition of two.
pub const TURNED: &[u8] = b"     FCARDS   IP  F      96            MFCU1
     FPRINT   O   F     132            PRINTER
     ICARDS   AA  01
     I                                        1   51ONE
     I                                        6  100TWO
     I                                       11  14 TEXT
     I                                       15  20 LONG
     I                                       21  359FINE
     C   01      ONE       COMP TWO                  10
     C   01 20   ONE       ADD  TWO       ONE        11
     C   20                SETON                     20
     C   20                Z-ADDTWO       ONE
     OPRINT   T        LR
     O                                    5 'TOTAL'
";

/// Fields of either kind, one with an indicator for blank and one with a relation; and packed ones of a file on disk.
pub const INPUTS: &[u8] = b"     FCARDS   IP  F      96            MFCU1
     FSTOCK   IS  F      20            DISK
     FPRINT   O   F     132            PRINTER
     ICARDS   AA  01
     I       OR   02
     I                                        1   51ONE         10
     I                                       11  14 TEXT
     I                                       15  20 LONG            20
     I                                       21  250TWO       02
     ISTOCK   BB  03
     I                                    P   1   50PACKED
     I                                    P   1   40SHORT
     OPRINT   T        LR
     O                                    5 'TOTAL'
";

/// A line of one condition, one with another for overflow, one with an AND card, one of a file with a condition, one for overflow
/// alone, and ones of one to four groups for EXCPT. A switch is the condition of the second file.
pub const OUTPUTS: &[u8] = b"     FCARDS   IP  F      96            MFCU1
     FPRINT   O   F     132     OA     PRINTER
     FLIST    O   F      20            DISK                           U1
     ICARDS   AA  01
     OPRINT   D        01
     O                                    5 'ONE'
     OPRINT   H        1P
     O       OR        OA
     O                                    5 'TWO'
     OPRINT   D        01
     O       AND       U1
     O                                    5 'AND'
     OLIST    D        01
     O                                    5 'LIST'
     OPRINT   D        OA
     O                                    5 'OVER'
     OPRINT   E        01 LR
     O                                    5 'E'
     OPRINT   E        01
     O       OR       N01
     O                                    5 'E'
     OPRINT   E        01
     O       OR       N01
     O       OR        LR
     O                                    5 'E'
     OPRINT   E        01
     O       OR       N01
     O       OR        LR
     O       OR        U1
     O                                    5 'E'
     OPRINT   T        LR
     O                                    5 'TOTAL'
";

/// Numbers, texts and a constant in their forms, and PAGE.
pub const OUTPUT_CARDS: &[u8] = b"     FCARDS   IP  F      96            MFCU1
     FPRINT   O   F     132            PRINTER
     ICARDS   AA  01
     I                                        1   51ONE
     I                                        6  100TWO
     I                                       11  14 TEXT
     I                                       15  20 LONG
     I                                       21  359FINE
     OPRINT   D        01
     O       AND       01
     O                         ONE       10
     O                 01      TWO   Z   20
     O                N01      TEXT      30
     O                N01      TEXT   B  30
     O                                   36 'END'
     O                         PAGE      40
     OPRINT   T        LR
     O                                    5 'TOTAL'
";
