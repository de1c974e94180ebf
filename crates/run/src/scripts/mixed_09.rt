use crate::scripts::Stored;

pub(crate) const SCRIPT: Stored = Stored {
    rack: "",
    lines: "elect 3
ship 3 3
push 3 1 6
ship 1 3
push 3 2 5
push 3 1 6
push 1 3 5
look 2 3 4
push 1 3 5
push 1 3 6
look 3 1 5
look 1 3 6
look 3 1 6
look 3 2 6
push 2 1 5
push 1 3 4
push 1 3 4
look 1 3 4
ship 2 1
look 3 1 5
look 1 3 6
commit 2
look 3 1 4
look 2 3 5
push 3 1 4
push 3 2 4
look 1 3 4
push 1 2 5
push 2 3 6
push 1 3 4
elect 1
take 1 3
timeout 2
push 3 1 4
ship 2 1
look 2 1 5
ship 3 1
push 2 1 6
push 1 2 4
look 1 2 4
push 3 2 6
push 1 3 6
push 2 1 6
push 3 2 5
push 3 1 4
look 3 1 6
push 3 2 6
push 2 3 6
push 1 2 5
push 1 2 5
look 1 2 6
look 2 1 4
look 1 3 4
look 2 1 4
push 3 1 5
look 3 2 6
push 2 1 4
look 2 3 5
look 1 2 6
push 1 3 5
look 1 2 5
look 2 3 6
look 3 1 5
push 3 2 5
look 1 3 4
look 2 3 6
push 3 2 6
look 1 2 6
look 2 3 6
push 1 2 4
push 1 3 6
push 2 3 6
look 1 3 7
push 1 2 5
push 1 2 5
look 2 3 4
look 3 2 6
look 2 1 4
look 2 3 5
look 2 1 5
look 1 2 4
look 3 2 6
push 3 2 5
commit 3
look 2 1 5
push 3 2 5
look 3 1 6
look 1 3 5
look 1 3 4
look 2 1 5
take 2 3
ship 3 2
push 3 1 4
push 2 3 5
look 2 1 7
look 2 1 5
push 1 3 5
take 2 3
push 1 2 4
push 1 3 5
push 3 2 5
look 3 1 4
look 2 3 5
look 2 3 5
look 3 1 5
look 1 3 4
push 3 2 4
push 1 2 6
push 1 3 6
look 2 3 4
look 3 1 5
look 2 3 4
push 2 1 4
look 2 3 5
look 2 1 6
push 2 1 5
push 1 2 5
look 1 2 4
ship 1 3
ship 2 2
look 3 1 6
look 2 1 5
take 1 3
push 1 3 5
push 2 3 5
look 2 1 4
push 1 2 6
push 3 1 5
push 2 1 6
look 1 2 6
push 3 2 4
look 3 1 4
push 3 1 6
look 1 3 6
push 1 3 5
push 2 3 6
look 2 3 4
push 1 3 4
look 3 1 4
push 3 2 4
look 2 3 4
push 1 2 4
look 2 1 4
push 3 2 4
push 3 2 5
commit 4
push 1 3 5
push 2 3 5
push 1 3 4
push 2 1 5
push 1 3 4
push 3 2 5
push 2 1 4
look 3 2 5
look 2 3 4
elect 3
push 1 2 6
push 2 3 6
push 3 1 6
push 2 3 4
ship 3 3
look 1 2 5
timeout 3
look 2 1 6
elect 1
commit 3
push 3 2 4
commit 1
look 1 2 4
ship 2 1
look 2 1 6
look 3 2 6
push 2 1 5
look 3 1 5
push 1 3 6
win 2
look 1 3 5
push 3 1 5
push 1 3 5
look 2 3 4
take 2 1
push 3 1 6
look 1 3 5
look 3 2 4
push 2 1 5
look 3 1 4
elect 1
look 3 1 4
look 3 1 5
push 3 2 4
look 2 3 4
push 2 1 5
push 1 3 6
look 3 2 6
push 2 3 4
take 3 1
take 1 3
look 3 2 4
push 1 3 5
push 3 1 4
commit 1
take 3 2
look 1 3 4
push 3 2 5
look 3 1 6
commit 3
push 2 1 5
win 3
push 3 2 4
look 3 1 6
look 3 1 7
look 1 2 5
look 3 2 5
submit 3 10 22 -206
look 2 3 5
look 3 2 5
look 2 3 5
push 2 3 5
push 2 1 5
push 3 1 4
push 1 3 6
push 3 2 6
push 3 1 6
look 3 2 5
look 2 3 4
push 2 1 5
look 1 3 4
push 2 1 5
push 2 1 5
push 1 3 5
look 3 1 6
commit 3
look 1 3 6
ship 2 2
push 1 2 6
push 2 1 6
look 3 1 5
push 3 2 5
push 3 1 4
push 1 2 5
push 1 3 5
look 1 2 6
look 2 1 6
look 3 1 4
push 1 2 6
look 2 1 5
look 2 3 5
look 2 1 6
elect 2
push 1 3 6
look 1 3 6
look 1 3 6
push 3 1 4
push 1 2 5
look 1 3 4
look 3 1 5
look 1 2 5
look 3 1 6
look 3 1 5
push 3 2 5
look 2 1 5
look 2 3 6
push 1 2 5
push 2 1 4
look 3 1 5
push 1 2 5
look 1 3 4
look 1 2 4
look 2 3 5
push 1 2 4
push 2 3 4
push 3 1 5
push 2 3 6
look 3 2 6
win 3
submit 3 0 18 78
look 2 1 5
push 1 3 5
push 3 2 4
win 3
push 3 1 4
look 3 2 4
ship 1 1
submit 3 10 8 130
look 2 1 6
look 2 1 5
push 1 3 5
look 1 3 5
look 2 1 4
submit 3 10 21 -969
push 2 3 6
timeout 3
push 2 1 4
take 1 3
look 1 2 4
look 2 3 4
win 2
push 3 2 5
look 3 2 6
push 2 1 5
push 1 2 5
ship 1 3
push 1 2 5
look 1 3 4
push 1 3 6
push 1 3 5
look 3 1 6
push 2 3 4
elect 3
commit 3
look 3 1 5
push 1 2 6
look 2 1 5
look 2 3 5
push 3 1 4
take 3 2
timeout 2
look 2 3 5
look 1 3 4
look 1 2 5
push 2 3 6
push 3 2 5
push 1 3 6
push 2 3 6
look 1 2 5
push 1 2 6
push 3 2 4
push 3 1 5
look 3 2 6
look 2 3 7
ship 3 1
push 2 1 6
look 2 3 5
push 2 3 5
look 3 1 6
push 1 3 6
look 1 2 6
push 2 1 4
elect 2
ship 2 1
look 3 2 4
look 1 3 5
push 2 1 5
look 3 1 5
push 1 3 4
look 3 2 5
look 1 2 5
elect 1
look 2 3 4
look 3 1 5
look 2 3 6
look 3 1 5
look 2 1 5
take 2 1
look 1 2 4
look 2 1 6
look 3 1 6
push 2 3 5
push 2 1 6
look 3 1 4
look 3 2 6
look 2 1 6
look 3 2 5
push 3 1 4
look 1 2 5
commit 4
look 1 2 5
win 3
ship 3 2
elect 3
look 1 2 6
submit 3 12 31 878
submit 3 11 14 925
push 1 3 5
push 3 1 5
push 2 3 6
push 2 3 4
ship 3 2
look 3 2 6
push 3 1 5
ship 3 2
push 3 2 4
submit 3 8 6 253
push 3 2 4
look 1 2 5
ship 3 2
push 1 2 4
look 1 3 5
take 2 3
push 1 2 6
push 3 1 4
look 1 3 4
push 2 1 5
look 2 1 4
look 1 2 5
look 1 2 5
push 1 3 4
take 2 3
push 1 3 6
push 3 2 4
look 3 1 5
commit 2
push 1 3 4
push 2 1 4
look 1 3 5
look 3 1 4
submit 3 3 25 -538
submit 3 15 23 -543
push 3 1 4
push 3 1 6
ship 3 1
look 1 2 5
take 1 3
ship 3 1
push 2 3 5
push 3 2 5
ship 3 2
elect 2
look 3 1 4
look 1 2 4
submit 3 5 13 822
take 1 3
look 3 1 6
take 2 3
look 3 2 4
look 1 3 4
win 3
push 1 2 4
look 2 3 5
submit 3 1 24 -935
submit 3 10 29 -292
submit 3 12 8 614
submit 3 0 5 -444
push 1 3 4
push 2 3 4
submit 3 7 23 894
push 3 2 5
look 2 1 6
push 2 3 5
push 1 3 5
push 1 3 5
ship 3 1
look 2 3 4
look 3 1 4
look 3 2 5
submit 3 15 1 852
look 2 3 4
look 1 3 4
take 2 3
submit 3 3 6 996
take 3 1
win 1
ship 3 2
commit 3
push 3 2 5
look 3 1 5
win 2
commit 3
ship 3 1
push 3 1 4
push 1 3 5
ship 2 1
push 3 1 5
ship 3 2
ship 3 1
push 2 3 5
look 1 3 5
look 3 1 5
take 1 3
push 3 2 6
look 2 3 5
look 2 3 5
look 2 3 6
take 2 3
commit 2
take 2 3
push 3 1 4
ship 3 2
push 1 3 4
commit 2
take 1 3
ship 3 3
take 1 3
push 3 1 4
look 2 1 4
push 3 2 4
look 3 1 4
take 2 3
push 1 3 5
look 1 2 5
look 3 2 4
take 2 3
commit 3
look 3 2 5
look 2 1 5
push 2 3 6
commit 1
take 1 2
look 3 2 6
ship 2 1
",
    prints: "ok 0
no 1
ok
no 5
ok
ok
ok
no 6
ok
ok
ok
ok
ok
no 6
ok
ok
ok
no 6
no 5
ok
ok
no 5
ok
ok
ok
ok
ok
ok
ok
ok
ok 0
no 6
ok 0 2
ok
no 5
ok
no 5
ok
ok
no 6
ok
ok
ok
ok
ok
ok
ok
ok
ok
ok
ok
ok
ok
no 6
ok
ok
ok
ok
ok
ok
ok
ok
ok
ok
ok
ok
ok
no 6
ok
ok
ok
ok
no 3
ok
ok
ok
ok
ok
ok
ok
ok
ok
ok
no 5
ok
ok
ok
ok
no 6
ok
no 6
no 5
ok
ok
no 3
ok
ok
no 6
ok
ok
ok
ok
ok
ok
ok
ok
ok
ok
ok
ok
ok
no 6
ok
ok
ok
ok
ok
ok
no 5
no 1
ok
ok
no 6
ok
ok
ok
ok
ok
ok
ok
ok
ok
ok
ok
ok
ok
ok
ok
ok
ok
ok
ok
ok
ok
ok
no 1
ok
ok
ok
ok
ok
ok
ok
ok
ok
ok 2
ok
ok
ok
ok
no 1
ok
ok 0 3
ok
ok 2
no 5
ok
no 5
ok
no 5
ok
ok
ok
ok
ok
no 7
ok
ok
ok
ok
no 6
ok
ok
ok
ok
ok
ok 2
ok
ok
ok
ok
ok
ok
ok
ok
no 6
no 6
ok
ok
ok
no 5
no 6
ok
ok
ok
no 5
ok
no 7
ok
ok
no 3
ok
ok
no 5
ok
ok
ok
ok
ok
ok
ok
ok
ok
ok
ok
ok
ok
ok
ok
ok
ok
no 5
ok
no 1
ok
ok
ok
ok
ok
ok
ok
ok
ok
no 6
ok
ok
ok
ok
ok 2
ok
ok
ok
ok
ok
ok
ok
ok
ok
ok
ok
ok
ok
ok
ok
ok
ok
ok
ok
ok
ok
ok
ok
ok
ok
ok 0 3
ok 0 3 1
ok
ok
ok
no 5
ok
ok
no 1
ok 0 3 2
no 6
ok
ok
ok
ok
ok 0 3 3
ok
ok 1 3
ok
no 6
ok
ok
no 7
ok
ok
ok
ok
no 5
ok
ok
ok
ok
ok
ok
ok 0
no 5
ok
ok
ok
ok
ok
no 6
ok 1 2
ok
ok
ok
ok
ok
ok
ok
ok
ok
ok
ok
ok
no 3
no 5
ok
ok
ok
ok
ok
ok
ok
ok 2
no 5
ok
ok
ok
ok
ok
ok
ok
ok 2
ok
ok
no 6
ok
ok
no 6
ok
ok
ok
ok
ok
ok
ok
ok
ok
ok
ok
no 1
ok
ok 1 3
ok 4
no 5
ok
ok 1 3 1
ok 1 3 2
ok
ok
ok
ok
ok 1
ok
ok
ok 1
ok
ok 1 3 3
ok
ok
ok 1
ok
ok
ok 2
ok
ok
ok
ok
ok
ok
ok
ok
ok 1
ok
ok
ok
no 6
ok
ok
ok
ok
ok 1 3 4
ok 1 3 5
ok
no 6
ok 4
ok
ok 2
ok 1
ok
ok
ok 1
no 5
ok
ok
ok 1 3 6
ok 1
ok
ok 1
ok
ok
no 5
ok
ok
ok 1 3 7
ok 1 3 8
ok 1 3 9
ok 1 3 10
ok
ok
ok 1 3 11
ok
ok
ok
ok
ok
ok 1
ok
ok
ok
ok 1 3 12
ok
ok
ok 1
ok 1 3 13
no 6
no 5
ok 1
ok 3
ok
ok
no 5
ok 1
ok 1
ok
ok
no 5
ok
ok 1
ok 1
ok
ok
ok
ok 1
ok
ok
ok
ok
ok 1
ok 3
ok 1
ok
ok 1
ok
ok 1
ok 1
no 1
ok 1
ok
ok
ok
ok
ok 1
ok
ok
ok
ok 1
ok 1
ok
no 6
ok
no 6
no 6
ok
no 5
card 1
card 2 0.3.1 0.3.2 0.3.3 1.3.1
card 3 0.3.1 0.3.2 0.3.3 1.3.1 1.3.2
",
};
