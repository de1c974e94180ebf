use crate::scripts::Stored;

pub(crate) const SCRIPT: Stored = Stored {
    rack: "",
    lines: "push 1 3 6
look 3 1 6
push 3 1 6
push 3 1 5
push 1 3 4
push 3 2 4
look 1 3 6
look 1 3 5
commit 2
timeout 2
push 1 3 6
push 3 1 5
look 1 3 5
push 3 1 5
look 3 1 4
look 2 3 4
push 1 3 6
push 1 2 4
look 2 1 6
push 1 2 6
push 3 2 6
push 1 3 6
ship 1 3
commit 1
push 3 2 5
push 2 1 4
look 1 3 5
look 2 3 6
push 2 1 5
look 2 1 4
look 2 1 6
commit 1
look 2 3 5
push 2 3 4
push 3 2 5
look 3 1 6
look 1 2 4
submit 2 14 8 697
push 2 3 6
look 1 2 5
push 2 3 4
look 2 3 5
push 2 3 6
push 3 2 4
push 1 3 5
look 3 2 6
look 3 1 5
push 2 1 6
push 3 2 4
look 3 2 6
push 3 1 4
push 3 1 6
push 1 2 4
look 2 3 4
look 3 1 4
push 2 1 5
look 2 1 4
push 2 3 4
look 3 1 6
elect 1
push 3 2 6
take 2 3
push 1 3 6
push 1 2 4
push 3 2 6
look 2 3 6
look 1 3 4
look 1 3 6
push 1 2 5
look 1 2 5
look 2 1 4
look 2 3 4
look 3 2 5
push 1 2 6
push 1 3 6
push 1 3 6
take 2 3
push 3 1 6
look 2 1 5
commit 3
push 2 3 6
look 3 2 6
push 3 1 6
look 1 3 6
push 3 1 4
push 3 1 4
look 3 1 6
push 2 1 6
push 3 2 4
look 2 3 6
push 2 1 5
push 2 1 6
take 3 2
look 2 3 4
elect 1
push 3 1 4
look 1 3 4
push 2 1 4
push 2 3 5
push 2 3 4
look 1 2 6
push 3 1 4
push 1 3 4
look 2 3 4
look 2 3 7
commit 4
take 3 2
look 3 2 5
push 1 3 5
push 3 1 5
push 1 2 6
look 1 3 5
elect 3
push 2 3 6
look 1 3 4
look 3 1 6
look 1 3 4
look 2 1 7
look 2 1 4
look 3 1 5
push 1 2 4
look 1 3 4
look 1 3 6
look 1 2 4
push 3 2 4
push 3 2 6
look 2 3 6
look 3 2 6
look 3 1 6
win 2
ship 2 1
look 2 1 6
push 1 2 4
submit 2 13 31 -430
look 1 2 6
timeout 2
push 2 1 4
look 2 3 4
take 1 2
take 2 1
push 3 1 6
look 1 3 4
push 3 1 6
push 2 1 4
look 1 2 4
look 3 2 4
look 2 1 4
push 3 2 5
look 2 1 4
look 1 2 4
look 2 1 6
push 3 2 4
commit 4
push 1 3 5
push 3 1 4
look 1 2 6
commit 1
look 1 2 5
look 1 3 6
look 3 2 4
look 1 3 4
push 1 2 5
push 2 3 5
take 1 2
push 2 1 4
push 2 3 4
look 3 1 7
push 3 2 5
push 3 2 5
commit 4
take 1 3
timeout 2
look 1 2 4
look 2 3 7
push 3 2 6
look 3 1 6
look 2 1 5
look 2 3 6
look 2 3 5
look 2 3 4
look 3 2 5
look 1 3 6
push 2 3 4
push 1 2 5
look 3 1 4
commit 2
push 3 1 4
look 3 2 4
look 2 3 5
elect 3
look 2 1 5
push 1 3 4
look 1 3 4
push 2 3 5
win 3
push 2 1 5
push 3 2 6
look 3 1 5
push 2 1 4
push 1 2 4
commit 2
push 1 2 5
push 1 3 5
look 1 2 5
look 2 1 4
push 3 2 6
ship 2 3
push 2 3 4
push 3 2 5
push 3 1 6
ship 1 1
look 1 3 6
push 1 2 4
commit 2
push 1 2 4
ship 1 2
push 3 2 4
submit 1 3 6 805
push 2 1 4
look 3 2 4
push 2 1 4
timeout 3
look 3 1 4
elect 2
push 2 1 5
look 3 2 5
push 2 1 5
look 1 3 4
look 3 2 4
look 2 1 4
look 3 1 5
elect 3
take 3 2
take 3 2
look 1 2 4
look 2 1 5
push 2 1 4
look 2 3 5
commit 4
take 2 3
look 2 3 6
look 1 2 5
look 3 1 7
look 2 1 4
look 1 2 5
take 2 0
push 3 1 5
look 1 2 4
push 2 1 4
look 2 3 5
push 3 1 4
look 2 3 6
look 1 2 4
look 2 3 4
look 1 2 6
look 1 2 4
look 3 2 4
push 3 2 5
push 1 2 4
look 1 2 4
push 3 1 5
push 3 2 6
push 3 2 6
look 2 1 4
look 2 3 5
look 1 3 4
look 3 2 4
push 3 1 4
push 2 1 4
timeout 3
win 2
submit 2 9 31 944
push 1 3 4
look 2 3 6
take 2 3
ship 2 3
push 3 1 5
look 1 3 7
look 1 3 5
look 2 3 6
take 3 2
submit 2 2 14 404
look 1 3 4
push 2 1 6
commit 2
commit 3
submit 2 13 16 747
ship 2 1
ship 2 1
look 1 3 5
look 1 2 4
look 1 3 5
push 2 1 4
elect 3
push 3 1 4
take 1 2
ship 2 3
look 1 3 4
push 3 1 4
push 3 1 6
take 1 2
ship 2 1
submit 2 12 18 -383
ship 2 3
take 2 3
look 3 1 4
look 1 2 4
submit 2 10 16 -459
submit 2 3 12 765
submit 2 11 13 24
submit 2 9 11 -480
take 3 2
ship 2 1
commit 3
push 1 3 5
submit 2 15 16 -642
push 1 2 4
look 2 1 4
push 1 2 4
push 3 2 6
ship 2 1
push 2 3 4
commit 2
look 1 3 4
push 3 2 5
ship 2 3
commit 2
look 2 3 5
look 3 1 5
push 2 1 5
look 1 2 5
look 2 1 4
push 1 2 4
look 1 3 6
push 1 3 5
ship 2 3
commit 1
look 3 2 4
look 3 1 5
ship 2 3
take 2 3
push 1 3 5
push 3 2 4
look 2 3 6
look 1 3 4
take 1 2
push 1 3 4
push 1 2 5
push 2 1 6
submit 2 3 16 800
look 3 1 5
submit 2 7 21 480
take 3 2
take 1 2
push 1 2 5
ship 2 1
take 1 2
look 2 1 5
ship 2 1
ship 2 1
look 3 1 4
look 1 2 6
take 3 2
commit 1
submit 2 4 23 651
take 3 2
commit 1
push 2 1 4
push 3 1 6
push 1 3 6
push 3 1 4
take 1 2
take 3 2
elect 3
look 1 3 6
ship 2 3
look 2 1 5
take 1 2
look 2 3 4
look 2 1 7
look 1 3 4
push 3 2 4
push 2 3 6
look 1 2 5
ship 2 3
push 2 1 6
push 3 1 4
push 1 2 6
elect 2
look 2 1 6
look 3 1 6
take 1 2
push 1 3 5
look 2 3 4
take 3 2
push 2 1 4
ship 2 1
push 1 3 4
submit 2 11 23 -17
push 2 1 4
take 3 2
look 3 1 5
push 1 2 4
push 1 2 6
look 1 2 4
push 2 3 6
look 2 1 6
ship 2 1
ship 2 3
take 1 2
look 3 2 6
push 3 2 4
take 3 2
look 3 2 6
look 1 2 6
push 2 1 6
look 2 3 4
look 2 1 4
push 1 2 6
look 2 1 6
look 3 1 4
push 3 1 5
take 1 2
push 2 1 4
ship 2 1
push 3 1 6
ship 2 3
ship 2 3
push 3 1 5
elect 2
elect 2
push 2 1 6
push 2 1 4
push 1 3 4
take 3 2
push 3 2 5
look 1 3 6
look 2 1 4
look 2 3 5
take 2 3
look 1 3 4
ship 2 1
look 1 2 6
commit 2
push 1 3 6
look 3 1 6
push 1 2 6
elect 1
commit 2
commit 2
push 3 1 6
take 1 2
push 2 1 5
push 3 1 5
push 3 2 4
take 1 2
ship 2 3
look 1 2 4
push 2 1 5
ship 2 1
look 3 1 4
commit 2
look 1 2 4
push 3 2 6
push 2 3 5
look 1 3 5
look 3 2 5
look 2 1 6
take 1 2
elect 3
push 2 1 6
look 1 3 6
push 2 1 5
commit 2
push 1 3 4
look 2 3 4
push 1 3 4
take 3 0
elect 1
ship 2 3
ship 2 3
push 3 1 4
commit 2
take 3 2
win 3
look 2 3 6
look 1 2 5
push 2 1 6
ship 2 3
take 2 0
ship 2 1
submit 2 2 3 457
push 1 3 5
ship 2 3
look 1 2 5
ship 2 1
look 1 3 4
look 3 1 5
push 1 2 4
take 1 2
",
    prints: "ok
ok
ok
ok
ok
ok
ok
ok
no 5
ok 0 2
ok
ok
ok
ok
ok
ok
ok
ok
no 6
ok
ok
ok
no 5
no 5
ok
ok
ok
ok
ok
ok
ok
no 5
ok
ok
ok
ok
ok
no 5
ok
ok
ok
ok
ok
ok
ok
ok
ok
ok
ok
ok
ok
ok
ok
ok
no 6
ok
ok
ok
ok
ok 2
ok
no 6
ok
ok
ok
ok
ok
ok
ok
ok
ok
ok
no 6
ok
ok
ok
no 6
ok
ok
no 5
ok
ok
ok
ok
ok
ok
ok
ok
ok
ok
ok
ok
no 6
ok
ok 0
ok
ok
ok
ok
ok
ok
ok
ok
no 6
no 3
no 1
no 6
ok
ok
ok
ok
ok
ok 2
ok
ok
ok
ok
no 3
no 6
ok
ok
ok
ok
ok
ok
ok
ok
ok
ok
ok 0 2
ok 1
ok
ok
ok 0 2 1
ok
ok 1 2
ok
ok
ok 2
no 6
ok
no 6
ok
ok
ok
ok
ok
ok
ok
ok
ok
ok
no 1
ok
ok
ok
no 6
ok
ok
ok
ok
ok
ok
no 6
ok
ok
no 3
ok
ok
no 1
no 6
ok 2 2
ok
no 3
ok
ok
ok
ok
ok
ok
ok
ok
ok
ok
ok
no 5
ok
ok
ok
ok 2
ok
ok
ok
ok
no 7
ok
ok
ok
ok
ok
no 5
ok
ok
ok
ok
ok
no 5
ok
ok
ok
no 1
ok
ok
no 5
ok
no 5
ok
no 5
ok
ok
ok
ok 1 3
ok
ok 0
ok
ok
ok
no 6
ok
ok
ok
ok 2
no 6
no 6
ok
ok
ok
ok
no 1
no 6
ok
ok
no 3
ok
ok
no 1
ok
ok
ok
ok
ok
ok
ok
ok
no 6
ok
ok
ok
ok
ok
ok
ok
ok
ok
ok
ok
ok
ok
ok
ok 2 3
ok 2 2
ok 2 2 1
ok
ok
no 6
ok 2
ok
no 3
ok
ok
ok 0
ok 2 2 2
ok
no 6
no 6
no 5
ok 2 2 3
ok 2
ok 1
ok
ok
ok
ok
ok 0
ok
ok 2
ok 1
ok
ok
ok
ok 1
ok 1
ok 2 2 4
ok 1
no 6
ok
ok
ok 2 2 5
ok 2 2 6
ok 2 2 7
ok 2 2 8
ok 0
ok 1
no 5
ok
ok 2 2 9
ok
ok
ok
ok
ok 1
ok
ok 1
ok
ok
ok 1
ok 1
ok
ok
ok
ok
ok
ok
ok
ok
ok 1
no 6
ok
ok
ok 1
no 6
ok
ok
ok
no 6
ok 1
ok
ok
ok
ok 2 2 10
ok
ok 2 2 11
ok 0
ok 1
ok
ok 1
ok 1
ok
ok 1
ok 1
ok
ok
ok 0
ok 1
ok 2 2 12
ok 0
ok 1
ok
ok
ok
ok
ok 1
ok 0
ok 0
ok
ok 1
ok
ok 1
ok
no 3
ok
ok
ok
no 6
ok 1
ok
ok
ok
no 5
ok
ok
ok 1
ok
ok
ok 0
ok
ok 1
ok
ok 2 2 13
ok
ok 0
ok
ok
ok
ok
ok
ok
ok 1
ok 1
ok 1
ok
ok
ok 0
ok
ok
ok
ok
ok
ok
ok
ok
ok
ok 1
ok
ok 1
ok
ok 1
ok 1
ok
no 5
no 5
ok
ok
ok
ok 0
ok
ok
ok
ok
no 6
ok
ok 1
ok
ok 1
ok
ok
ok
no 5
ok 1
ok 1
ok
ok 1
ok
ok
ok
ok 1
ok 1
ok
ok
ok 1
ok
ok 1
ok
ok
ok
ok
ok
ok
ok 1
ok 0
ok
ok
ok
ok 1
ok
ok
ok
no 1
no 5
ok 1
ok 1
ok
ok 1
ok 0
no 7
ok
ok
ok
no 6
no 1
ok 1
ok 2 2 14
ok
ok 1
ok
ok 1
ok
ok
ok
ok 1
card 1 0.2.1 2.2.1
card 2 0.2.1 2.2.1 2.2.2 2.2.3 2.2.4 2.2.5 2.2.6 2.2.7
card 3
",
};
