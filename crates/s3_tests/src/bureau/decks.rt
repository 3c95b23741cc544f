//! The decks of the sessions.

/// The card lister, compiled and run over the cards `ABC` and `DEF`: 8 turns.
pub const LISTER: &[u8] = b"\
// LOAD $RPG,F1
// RUN
     H                                                                    LIST
     FCARDS   IP  F  96  96            MFCU1
     FPRINT   O   F 132 132            PRINTER
     ICARDS   AA  01
     I                                        1   3 TEXT
     OPRINT   D        01
     O                         TEXT       3
/*
/&
// LOAD LIST,F1
// RUN
ABC
DEF
/*
/&
";

/// Makes DATA of five records of 1,024 bytes, then lists the end of each: twice 14 turns.
pub const FIVE_RECORDS: &[u8] = b"\
// LOAD $RPG,F1
// RUN
     H                                                                    MAKE
     FCARDS   IP  F  96  96            MFCU1
     FDATA    O   F    1024            DISK
     ICARDS   AA  01
     I                                        1   3 TEXT
     ODATA    D        01
     O                         TEXT    1024
/*
/&
// LOAD MAKE,F1
// FILE NAME-DATA,RECORDS-5
// RUN
ANT
BEE
CAT
DOG
EEL
/*
/&
// LOAD $RPG,F1
// RUN
     H                                                                    LIST
     FDATA    IP  F    1024            DISK
     FPRINT   O   F 132 132            PRINTER
     IDATA    AA  01
     I                                     10221024 TEXT
     OPRINT   D        01
     O                         TEXT       3
/*
/&
// LOAD LIST,F1
// FILE NAME-DATA
// RUN
/*
/&
";

/// Makes DATA of three records of 1,024 bytes, then lists the end of each: twice 10 turns.
pub const THREE_RECORDS: &[u8] = b"\
// LOAD $RPG,F1
// RUN
     H                                                                    MAKE
     FCARDS   IP  F  96  96            MFCU1
     FDATA    O   F    1024            DISK
     ICARDS   AA  01
     I                                        1   3 TEXT
     ODATA    D        01
     O                         TEXT    1024
/*
/&
// LOAD MAKE,F1
// FILE NAME-DATA,RECORDS-5
// RUN
FOX
GNU
HEN
/*
/&
// LOAD $RPG,F1
// RUN
     H                                                                    LIST
     FDATA    IP  F    1024            DISK
     FPRINT   O   F 132 132            PRINTER
     IDATA    AA  01
     I                                     10221024 TEXT
     OPRINT   D        01
     O                         TEXT       3
/*
/&
// LOAD LIST,F1
// FILE NAME-DATA
// RUN
/*
/&
";

/// Makes STOCK with three keys, then adds three and changes two by CHAIN, then lists it by key: 10, 16 and 16 turns.
pub const STOCK: &[u8] = b"\
// LOAD $RPG,F1
// RUN
     H                                                                    MAKE
     FCARDS   IP  F  96  96            MFCU1
     FSTOCK   O   F    1024  1AI     1 DISK
     ICARDS   AA  01
     I                                        1   1 KEY
     I                                        2   4 TEXT
     OSTOCK   D        01
     O                         KEY        1
     O                         TEXT    1024
/*
/&
// LOAD MAKE,F1
// FILE NAME-STOCK,RECORDS-6
// RUN
BBEE
DDOG
FFOX
/*
/&
// LOAD $RPG,F1
// RUN
     H                                                                    CHANGE
     FCARDS   IP  F  96  96            MFCU1
     FSTOCK   UC  F    1024R 1AI     1 DISK                      A
     ICARDS   AA  01   1 CA
     I                                        2   2 KEY
     I                                        3   5 TEXT
     ICARDS   BB  02   1 CU
     I                                        2   2 KEY
     I                                        3   5 TEXT
     ISTOCK   CC  03
     I                                        1   1 OLD
     C   02      KEY       CHAINSTOCK
     OSTOCK   DADD     01
     O                         KEY        1
     O                         TEXT    1024
     OSTOCK   D        02
     O                         TEXT    1024
/*
/&
// LOAD CHANGE,F1
// FILE NAME-STOCK
// RUN
AECOW
AAANT
UBBAT
UDDUG
ACCAT
/*
/&
// LOAD $RPG,F1
// RUN
     H                                                                    LIST
     FSTOCK   IP  F    1024  1AI     1 DISK
     FPRINT   O   F 132 132            PRINTER
     ISTOCK   AA  01
     I                                        1   1 KEY
     I                                     10221024 TEXT
     OPRINT   D        01
     O                         KEY        1
     O                         TEXT       5
/*
/&
// LOAD LIST,F1
// FILE NAME-STOCK
// RUN
/*
/&
";
