use crate::scripts::Stored;

pub(crate) const SCRIPT: Stored = Stored {
    rack: "",
    lines: "push 3 2 5
win 2
ship 1 3
take 3 2
take 3 1
look 2 1 5
push 1 3 5
look 3 2 5
win 1
look 1 2 7
push 1 3 5
push 2 3 6
look 2 1 6
push 3 2 5
look 2 3 5
look 3 1 5
push 1 3 4
push 2 3 5
look 2 3 5
look 3 2 6
push 2 3 6
push 1 3 5
look 3 2 5
push 2 3 5
push 1 2 6
push 2 3 5
look 3 1 4
look 3 2 6
push 2 1 6
push 2 3 5
look 3 1 5
look 2 1 6
look 3 2 5
look 3 2 5
push 2 1 5
look 1 2 5
push 1 3 5
push 1 3 5
push 3 2 6
push 3 2 6
push 2 1 4
look 3 1 5
push 1 2 6
look 1 2 6
take 2 1
push 3 1 5
look 2 3 6
push 2 1 6
look 1 3 5
push 1 2 4
push 1 3 5
look 1 2 4
look 2 1 4
push 3 1 6
push 2 3 6
look 2 3 6
look 3 2 6
push 3 2 4
look 1 3 6
push 3 2 5
look 3 2 5
push 1 3 4
look 3 1 4
push 3 2 4
push 3 1 5
look 1 2 6
take 2 1
look 2 3 5
push 3 1 5
take 2 0
look 1 3 4
push 3 1 4
push 2 1 5
push 1 2 5
look 2 3 4
timeout 1
look 2 1 5
push 2 1 5
look 1 3 5
look 1 3 4
look 3 1 5
look 2 3 4
push 3 2 6
look 1 3 5
push 3 2 4
push 3 1 6
look 2 1 6
push 1 2 6
look 1 3 6
ship 3 1
push 3 2 5
look 3 1 5
look 2 3 6
push 3 1 4
push 2 1 4
look 1 3 4
timeout 1
push 1 3 5
push 1 3 6
look 2 1 6
push 2 1 6
look 3 1 6
push 3 2 5
look 3 1 5
look 2 3 5
look 1 2 4
push 1 3 6
push 2 3 4
take 1 2
look 2 3 5
look 3 2 4
look 3 1 6
commit 2
look 3 1 5
commit 4
elect 3
push 1 2 5
push 1 2 4
push 2 1 5
push 2 1 6
look 2 1 4
push 2 1 4
look 1 2 6
push 2 3 4
push 2 1 5
push 1 3 5
look 2 3 4
win 2
push 3 2 4
look 3 1 5
look 2 3 4
look 1 2 4
ship 3 1
look 2 1 5
look 3 2 4
elect 2
look 1 2 6
push 1 3 5
push 1 2 6
commit 3
push 2 1 6
push 2 3 4
look 2 1 6
push 2 1 6
commit 3
push 1 3 5
look 3 2 4
push 2 3 5
push 2 1 4
push 1 2 6
look 2 3 6
look 1 2 5
push 3 1 5
push 3 2 6
push 3 1 4
push 1 3 4
look 3 1 5
commit 2
look 1 2 6
look 1 2 5
take 2 1
look 1 2 5
push 2 1 5
look 3 1 4
look 3 1 4
push 1 2 5
push 1 3 4
look 3 2 5
look 1 2 6
look 1 2 5
look 1 2 5
push 3 2 6
push 1 3 4
look 2 1 6
look 1 3 5
submit 2 14 8 -434
push 2 1 5
commit 2
commit 1
push 3 2 6
ship 1 1
push 1 3 6
push 1 2 5
look 1 2 4
push 3 1 5
look 1 3 4
look 3 1 5
look 2 1 5
win 1
submit 1 3 5 -897
ship 1 2
look 3 1 6
submit 1 10 22 -757
ship 1 3
take 2 1
ship 1 3
ship 1 2
look 1 3 5
look 1 2 5
push 2 3 5
look 3 2 5
push 3 1 6
submit 1 14 28 619
look 1 3 6
look 2 1 5
push 1 3 4
look 2 3 6
ship 1 3
look 2 3 6
ship 1 2
take 2 1
ship 1 3
ship 1 2
push 2 3 4
look 3 1 4
submit 1 3 4 717
submit 1 4 11 -215
look 3 1 4
take 3 1
submit 1 2 30 -973
take 3 1
push 2 3 4
take 3 1
look 3 2 4
push 2 3 5
look 3 2 4
push 3 1 4
look 3 2 5
ship 1 2
ship 1 3
ship 1 3
ship 1 3
look 2 3 6
push 2 3 5
take 2 1
push 1 3 5
look 1 3 4
submit 3 16 22 -139
ship 2 1
look 2 3 5
look 3 1 5
push 2 1 5
take 2 1
look 3 1 4
commit 1
commit 1
look 2 3 6
take 3 1
push 1 2 4
ship 1 1
submit 1 10 4 -146
commit 1
look 3 2 5
ship 1 3
push 3 2 4
take 2 1
look 2 3 4
push 2 1 4
look 2 1 4
push 1 2 6
push 1 3 6
push 2 3 5
take 3 1
ship 1 2
win 2
ship 1 2
take 3 1
submit 1 11 30 -143
push 1 3 5
push 3 2 5
push 3 1 3
ship 1 3
push 2 1 4
look 2 1 6
push 2 1 5
look 3 2 4
commit 2
look 3 1 5
submit 1 5 7 418
ship 1 2
commit 2
take 3 1
take 1 3
commit 2
look 3 1 6
push 3 2 4
ship 1 2
submit 1 3 23 708
look 1 2 4
push 2 3 6
submit 1 15 7 680
commit 3
push 3 1 5
push 2 3 6
take 3 1
ship 1 3
ship 1 2
ship 1 2
commit 1
commit 3
commit 3
look 2 3 4
commit 1
look 3 2 6
win 2
ship 1 3
submit 1 5 23 -903
ship 1 2
push 2 3 5
look 3 2 5
push 3 2 4
look 3 2 5
ship 1 3
submit 1 3 15 -590
take 2 1
push 2 3 5
submit 3 8 17 114
look 2 3 6
look 1 3 6
take 3 1
push 3 1 5
submit 1 8 7 -668
submit 1 3 18 232
push 3 2 4
submit 2 2 32 428
push 3 1 6
submit 1 2 22 655
look 2 3 4
ship 1 3
push 3 1 6
look 1 3 6
look 3 1 5
ship 1 3
push 3 1 6
take 2 1
look 1 3 6
push 1 3 6
look 2 3 5
push 2 1 4
look 1 3 6
take 2 1
ship 1 3
ship 1 3
ship 3 1
push 3 1 5
ship 1 3
look 3 1 6
commit 3
push 3 1 3
commit 3
push 1 3 5
push 1 3 5
push 1 3 6
push 2 1 4
commit 3
elect 1
push 3 2 4
submit 3 1 7 932
submit 2 2 12 -238
take 2 1
look 3 1 6
ship 1 2
look 3 1 5
push 3 1 4
look 2 3 4
take 2 1
look 3 2 5
take 3 1
look 2 3 4
look 1 3 4
push 1 3 5
elect 1
push 1 2 4
take 2 1
push 2 3 5
commit 1
look 1 3 5
push 1 2 4
take 3 0
look 3 2 5
commit 1
elect 3
take 2 1
commit 1
push 1 2 4
push 1 3 5
commit 1
take 3 1
push 1 2 6
look 1 2 5
look 1 3 5
look 2 1 4
elect 1
push 2 3 4
look 2 3 4
elect 3
take 3 1
look 1 3 5
push 2 1 4
take 3 1
push 3 2 5
push 3 2 6
take 1 0
ship 1 2
look 3 1 5
push 3 2 4
look 3 1 5
look 3 2 6
look 1 2 5
commit 2
look 2 3 5
commit 1
push 3 1 5
push 1 3 6
look 2 1 6
elect 2
commit 2
look 1 3 5
commit 2
push 3 2 6
ship 1 2
look 2 1 4
push 2 1 5
commit 2
push 3 1 4
push 2 3 5
commit 1
ship 1 2
push 2 3 4
commit 2
commit 3
push 2 3 5
look 2 1 4
push 3 1 3
take 2 1
take 2 1
push 3 2 4
take 3 1
take 2 1
push 2 3 6
push 1 3 4
commit 2
commit 2
look 3 1 5
look 3 1 6
commit 3
look 3 2 4
push 2 3 4
look 2 3 6
look 1 2 4
ship 1 3
take 2 1
push 1 2 5
ship 1 2
take 3 1
look 1 2 5
take 3 1
push 3 1 4
look 3 2 6
push 3 1 5
look 2 1 5
push 3 1 6
commit 3
take 2 1
look 2 3 6
commit 3
look 2 1 6
push 2 3 6
push 3 2 4
look 1 3 6
take 3 1
commit 3
look 1 3 4
push 1 3 4
push 1 2 5
look 1 3 5
commit 1
push 1 3 5
push 2 3 6
look 3 2 6
push 2 3 4
push 2 3 6
push 1 3 4
push 3 2 6
commit 1
look 3 2 5
push 3 2 5
look 3 2 4
submit 1 5 15 -551
push 2 3 6
look 2 1 5
look 3 2 5
commit 1
look 1 2 4
push 2 3 5
look 3 2 4
push 1 3 5
look 3 1 4
push 1 3 4
push 2 1 4
",
    prints: "ok
no 7
no 5
no 6
no 6
no 6
ok
no 6
no 7
no 3
ok
ok
no 6
ok
ok
ok
ok
ok
ok
ok
ok
ok
ok
ok
ok
ok
ok
ok
ok
ok
ok
ok
ok
ok
ok
ok
ok
ok
ok
ok
ok
ok
ok
ok
no 6
ok
ok
ok
ok
ok
ok
ok
ok
ok
ok
ok
ok
ok
ok
ok
ok
ok
ok
ok
ok
ok
no 6
ok
ok
no 1
no 6
ok
ok
ok
ok
ok 0 1
ok
ok
ok
ok
ok
ok
ok
ok
ok
ok
ok
ok
ok
no 5
ok
ok
ok
ok
ok
ok
ok 1 1
ok
ok
ok
ok
ok
ok
ok
ok
ok
ok
ok
no 6
ok
ok
ok
no 5
ok
no 1
ok 2
ok
ok
ok
ok
ok
ok
ok
ok
ok
ok
ok
no 7
ok
ok
ok
ok
no 5
ok
ok
ok 2
ok
ok
ok
no 5
ok
ok
ok
ok
no 5
ok
ok
ok
ok
ok
no 6
ok
ok
ok
ok
ok
ok
no 5
ok
ok
no 6
ok
ok
ok
no 6
ok
ok
ok
ok
ok
ok
ok
ok
ok
ok
no 5
ok
no 5
no 5
ok
no 1
ok
ok
ok
ok
ok
ok
ok
ok 1 1
ok 1 1 1
ok 1
ok
ok 1 1 2
ok 1
ok 2
ok 1
ok 1
ok
ok
ok
ok
ok
ok 1 1 3
ok
ok
ok
ok
ok 1
ok
ok 1
ok 1
ok 1
ok 1
ok
ok
ok 1 1 4
ok 1 1 5
ok
ok 2
ok 1 1 6
ok 1
ok
ok 1
ok
ok
ok
ok
ok
ok 1
ok 1
ok 1
ok 1
ok
ok
ok 1
ok
ok
no 3
no 5
no 6
ok
ok
ok 1
ok
ok 0
ok 1
no 6
ok 1
ok
no 1
ok 1 1 7
ok 1
ok
ok 1
ok
ok 1
ok
ok
ok
ok
ok
ok
ok 1
ok 1
no 5
ok 1
ok 1
ok 1 1 8
ok
ok
no 3
ok 1
ok
ok
ok
no 6
ok 0
ok
ok 1 1 9
ok 1
ok 1
ok 1
no 6
ok 1
ok
ok
ok 1
ok 1 1 10
ok
ok
ok 1 1 11
ok 0
ok
ok
ok 1
ok 1
ok 1
ok 1
ok 1
ok 1
ok 1
ok
ok 1
ok
no 5
ok 1
ok 1 1 12
ok 1
ok
ok
ok
ok
ok 1
ok 1 1 13
ok 1
ok
no 5
no 6
no 6
ok 1
ok
ok 1 1 14
ok 1 1 15
ok
no 3
ok
ok 1 1 16
ok
ok 1
ok
ok
no 6
ok 1
ok
ok 1
ok
ok
ok
ok
ok
ok 1
ok 1
ok 1
no 5
ok
ok 1
ok
ok 1
no 3
ok 1
ok
ok
ok
ok
no 6
no 5
ok
no 5
no 5
ok 1
ok
ok 1
ok
ok
ok
ok 1
ok
ok 1
ok
ok
ok
no 5
ok
ok 1
ok
ok 1
ok
ok
no 1
ok
ok 1
no 5
ok 1
ok 1
ok
ok
ok 1
ok 1
ok
ok
ok
ok
no 5
ok
no 6
no 5
ok 1
ok
ok
ok 1
ok
ok
no 1
ok 1
ok
ok
ok
ok
ok
no 6
ok
no 6
ok
ok
ok
no 5
ok 1
ok
ok 1
ok
ok 1
ok
ok
ok 1
ok
ok
no 6
ok 1
ok
ok 1
no 6
ok
ok
no 3
ok 1
ok 1
ok
ok 1
ok 1
ok
ok
ok 1
ok 1
ok
ok
ok 1
ok
ok
ok
ok
no 6
ok 1
ok
ok 1
ok 1
ok
ok 1
ok
ok
ok
ok
ok
ok 1
ok 1
ok
ok 1
no 6
ok
ok
ok
ok 1
ok 1
ok
ok
ok
ok
ok 1
ok
ok
ok
ok
ok
ok
ok
ok 1
ok
ok
ok
no 10
ok
ok
ok
ok 1
ok
ok
ok
ok
ok
ok
ok
card 1 1.1.1 1.1.2 1.1.3 1.1.4 1.1.5 1.1.6 1.1.7 1.1.8 1.1.9 1.1.10 1.1.11
card 2 1.1.1 1.1.2 1.1.3 1.1.4 1.1.5 1.1.6 1.1.7 1.1.8
card 3 1.1.1 1.1.2 1.1.3 1.1.4 1.1.5 1.1.6 1.1.7 1.1.8
",
};
