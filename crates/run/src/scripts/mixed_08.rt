use crate::scripts::Stored;

pub(crate) const SCRIPT: Stored = Stored {
    rack: "",
    lines: "push 2 1 6
look 1 2 6
push 3 1 4
push 3 2 5
ship 2 3
push 3 1 6
elect 3
ship 2 1
push 3 1 4
push 2 3 4
push 1 3 6
push 2 1 3
look 3 2 4
look 2 3 5
push 1 3 4
push 1 3 6
look 3 1 4
commit 3
push 1 3 5
push 2 3 6
push 3 2 5
look 3 1 5
push 3 1 4
look 1 3 6
look 2 3 5
elect 1
look 3 2 6
push 1 2 5
look 2 1 5
timeout 3
push 1 2 4
look 2 1 4
push 3 1 4
push 2 3 5
ship 3 3
push 3 2 6
push 1 3 4
push 2 3 6
look 2 3 6
push 1 2 4
look 2 1 4
look 3 1 6
push 1 3 5
push 2 3 4
push 2 1 6
push 1 3 5
look 1 2 6
look 1 3 4
look 3 2 4
push 1 3 6
push 3 1 4
push 2 1 4
look 3 1 5
look 3 1 5
push 1 2 6
take 1 2
push 3 1 6
look 3 1 6
look 3 2 5
look 1 3 4
look 3 1 6
push 1 3 5
look 3 1 5
look 3 1 4
look 2 1 6
push 3 2 6
look 2 1 4
push 2 1 6
push 1 2 5
look 2 3 5
submit 3 14 28 -437
look 1 3 6
look 2 3 6
look 1 3 4
look 1 3 6
take 3 1
push 3 1 6
take 1 3
look 1 3 4
push 3 2 5
look 1 3 6
ship 3 1
push 3 1 5
push 3 1 6
push 2 1 3
push 3 2 5
look 2 1 5
take 1 0
push 3 1 6
look 1 3 4
look 2 3 5
look 2 1 7
elect 2
look 1 2 6
look 1 2 7
look 2 3 5
push 3 2 4
push 2 1 6
push 3 2 4
push 3 1 4
push 3 2 4
elect 3
push 1 3 6
look 1 3 6
look 2 3 4
look 1 2 4
push 1 3 4
look 1 3 6
push 3 1 4
submit 2 8 7 -418
look 3 1 6
push 2 1 6
look 3 1 4
look 2 3 4
push 2 3 6
look 1 2 6
commit 1
push 2 1 5
push 1 2 6
look 1 3 5
look 1 2 6
win 1
look 2 3 4
look 2 1 6
push 3 1 5
look 1 2 5
push 2 1 6
look 1 2 6
push 1 2 6
take 1 2
push 2 3 6
push 3 2 5
look 1 3 4
look 1 3 5
timeout 3
look 2 3 5
push 1 3 5
push 3 2 4
commit 4
push 2 1 4
push 2 1 6
push 2 1 5
push 2 1 4
look 1 2 4
take 1 2
look 2 3 4
submit 1 4 11 -142
look 3 1 5
push 3 2 5
commit 1
push 1 2 4
look 2 3 5
ship 3 2
look 2 1 6
look 2 3 6
push 3 2 6
look 1 2 5
push 2 1 5
look 1 2 5
look 1 3 4
look 3 2 6
look 1 2 7
look 2 1 4
push 1 3 4
look 3 1 4
push 1 2 4
push 1 2 5
push 3 1 4
push 3 2 5
push 3 1 5
elect 2
elect 1
push 2 3 3
push 1 2 5
push 2 3 6
push 2 3 5
look 1 3 4
push 2 1 5
push 1 2 4
commit 2
look 3 2 5
look 2 3 7
push 2 3 6
win 3
push 2 3 4
ship 3 1
look 2 3 5
look 3 2 4
push 2 1 6
submit 3 15 14 777
look 1 2 4
elect 3
ship 3 1
look 1 2 5
look 2 1 5
take 1 3
look 3 2 6
look 1 2 6
look 1 2 6
push 3 1 5
push 2 1 5
push 2 1 6
push 1 2 5
push 2 1 4
push 2 3 4
ship 3 2
look 1 2 5
look 3 2 6
push 2 3 5
push 2 3 5
submit 3 5 10 636
look 2 1 5
push 2 3 6
push 2 1 6
look 3 2 4
push 2 1 4
push 3 2 5
ship 3 2
ship 3 1
look 2 3 6
look 1 3 5
look 1 3 5
push 3 1 5
ship 3 2
push 2 1 4
submit 3 10 27 909
push 2 3 6
push 3 2 4
look 2 3 7
take 1 3
push 1 2 5
push 3 1 4
look 2 1 4
look 1 2 4
look 2 3 5
look 1 2 6
look 3 2 5
push 3 1 4
look 1 3 5
look 2 1 5
ship 3 1
look 1 3 4
look 2 3 4
look 1 2 4
push 1 3 5
push 2 3 6
submit 3 13 23 -13
ship 2 1
look 1 2 6
submit 3 7 14 381
take 1 3
look 1 3 4
push 1 2 4
push 2 3 4
take 2 3
ship 3 1
look 3 2 6
look 1 2 4
ship 3 2
look 2 1 5
push 2 1 5
look 1 2 5
take 1 3
look 3 2 4
push 1 2 5
ship 3 2
look 3 2 6
take 1 3
push 1 3 4
look 3 1 4
take 2 3
look 3 2 5
ship 3 1
commit 3
push 2 1 4
win 1
submit 3 11 0 796
push 1 3 5
ship 3 1
look 3 1 5
commit 3
push 3 2 4
take 1 3
push 1 3 5
take 3 1
ship 3 3
take 1 3
ship 3 2
elect 2
look 3 1 5
submit 3 4 3 -858
commit 3
ship 3 2
look 2 1 5
submit 3 14 9 451
push 1 3 5
ship 3 2
ship 3 2
look 2 1 4
push 3 2 4
commit 3
push 3 1 5
push 3 1 6
commit 3
push 2 3 5
ship 3 1
look 3 2 5
look 3 1 7
take 2 3
take 1 3
commit 3
ship 3 1
look 1 2 4
look 3 2 6
look 3 2 6
submit 3 9 16 -458
ship 3 2
push 1 2 4
push 1 3 5
take 1 3
take 2 3
win 3
submit 3 3 23 -162
submit 3 10 31 -500
push 3 2 6
submit 3 6 27 -111
take 2 3
look 2 3 6
take 3 0
look 2 3 4
ship 3 2
ship 3 2
ship 3 1
push 2 3 5
look 3 1 5
push 1 2 5
take 2 3
commit 2
push 1 2 4
submit 3 10 23 -895
look 3 1 5
ship 3 2
look 1 3 5
push 1 3 5
push 2 1 5
take 2 3
submit 0 99 27 -640
ship 3 1
look 1 2 5
push 2 3 4
push 1 3 5
ship 3 1
push 2 3 5
commit 2
push 1 2 5
take 2 3
look 1 2 5
commit 2
submit 3 9 14 -676
push 2 3 6
commit 2
ship 3 2
look 2 1 5
commit 2
look 2 1 4
push 2 3 6
ship 3 2
push 1 3 4
ship 3 1
ship 3 1
take 2 3
submit 3 8 9 -997
look 3 2 4
commit 3
commit 3
push 3 1 5
push 2 3 6
take 3 2
push 2 1 6
take 2 3
push 2 3 5
push 1 2 4
look 1 3 6
take 2 3
commit 1
commit 3
look 1 2 7
look 3 2 5
look 1 2 6
look 3 2 5
look 2 1 5
look 2 1 4
look 3 1 4
push 2 3 4
push 2 1 4
take 2 3
push 2 1 4
commit 2
ship 3 2
push 2 1 5
look 1 2 4
look 2 3 4
look 3 2 6
commit 3
commit 2
take 1 3
take 1 3
commit 1
look 2 3 4
look 1 3 5
commit 1
look 3 2 4
push 1 2 4
commit 3
submit 3 3 31 -874
look 1 2 4
push 2 1 4
look 1 3 5
commit 3
push 3 2 6
push 1 3 5
push 3 2 6
ship 3 2
commit 3
take 2 0
ship 3 1
take 1 3
take 2 3
look 1 2 4
push 2 1 6
look 3 1 5
look 1 3 4
push 1 2 6
look 3 2 6
look 3 2 5
submit 2 9 6 -877
commit 1
push 3 2 5
push 1 2 4
take 2 3
take 2 3
look 2 1 4
look 1 2 6
ship 2 1
take 2 3
take 1 3
ship 3 3
look 2 1 4
push 2 3 5
look 3 2 5
look 3 2 6
push 2 3 6
push 3 1 3
push 1 3 5
push 3 1 4
look 2 1 6
push 1 2 5
take 1 3
push 3 1 4
take 2 3
look 2 1 4
look 1 3 4
push 1 3 6
push 1 3 6
look 2 1 4
look 2 3 6
look 2 3 6
push 3 1 6
look 1 3 4
look 2 3 5
look 1 2 5
push 1 2 4
commit 2
look 2 1 4
look 3 1 5
push 2 3 6
take 1 3
look 1 3 6
push 3 2 4
commit 2
push 3 1 6
take 1 2
commit 2
ship 3 1
look 3 1 5
look 3 1 6
commit 1
commit 1
commit 2
push 3 2 4
look 3 1 6
commit 2
look 1 3 6
look 2 1 5
push 2 1 6
take 1 3
push 3 1 5
push 3 2 4
look 1 2 6
push 3 1 4
",
    prints: "ok
ok
ok
ok
no 5
ok
ok 0
no 5
ok
ok
ok
no 3
ok
ok
ok
ok
ok
no 5
ok
ok
ok
ok
ok
ok
ok
ok 0
ok
ok
ok
ok 0 3
ok
ok
ok
ok
no 1
ok
ok
ok
ok
ok
ok
ok
ok
ok
ok
ok
ok
ok
ok
ok
ok
ok
ok
ok
ok
no 6
ok
ok
ok
ok
ok
ok
ok
ok
ok
ok
no 6
ok
ok
no 6
no 5
ok
ok
ok
no 6
no 6
ok
no 6
ok
ok
ok
no 5
ok
ok
no 3
ok
ok
no 1
ok
ok
ok
no 3
ok 2
ok
no 3
ok
ok
ok
ok
ok
ok
ok 0
ok
ok
ok
ok
ok
ok
ok
no 5
ok
ok
ok
ok
ok
ok
no 5
ok
ok
ok
ok
no 7
ok
ok
ok
ok
ok
ok
ok
no 6
ok
ok
ok
ok
ok 1 3
ok
ok
ok
no 1
ok
ok
ok
ok
ok
no 6
ok
no 5
ok
ok
no 5
ok
ok
no 5
ok
no 6
ok
ok
ok
ok
ok
ok
no 3
ok
ok
ok
ok
ok
ok
ok
ok
ok 2
ok 2
no 3
ok
ok
ok
ok
ok
ok
no 5
ok
no 3
ok
ok 1 3
ok
ok 1
ok
ok
ok
ok 1 3 1
ok
no 5
ok 1
ok
ok
ok 2
ok
ok
ok
ok
ok
ok
ok
ok
ok
ok 1
ok
ok
ok
ok
ok 1 3 2
ok
ok
ok
ok
ok
ok
ok 1
ok 1
ok
ok
ok
ok
ok 1
ok
ok 1 3 3
ok
ok
no 3
ok 1
ok
ok
ok
ok
ok
ok
ok
ok
ok
ok
ok 1
ok
ok
ok
ok
ok
ok 1 3 4
no 5
ok
ok 1 3 5
ok 1
ok
ok
ok
ok 2
ok 1
ok
ok
ok 1
ok
ok
ok
ok 1
ok
ok
ok 1
ok
ok 1
ok
ok
ok 1
ok
ok 1
ok 0
ok
no 5
ok 1 3 6
ok
ok 1
ok
ok 1
ok
ok 1
ok
no 6
no 1
ok 1
ok 1
no 5
ok
ok 1 3 7
ok 1
ok 1
ok
ok 1 3 8
ok
ok 1
ok 1
ok
ok
ok 1
ok
ok
ok 1
ok
ok 1
ok
no 3
ok 1
ok 1
no 6
ok 1
ok
ok
ok
ok 1 3 9
ok 1
ok
ok
ok 1
ok 1
no 5
ok 1 3 10
ok 1 3 11
ok
ok 1 3 12
ok 1
ok
no 1
ok
ok 1
ok 1
ok 1
ok
ok
ok
ok 1
ok 0
ok
ok 1 3 13
ok
ok 1
ok
ok
ok
ok 1
no 1
ok 1
ok
ok
ok
ok 1
ok
ok 1
ok
ok 1
no 6
ok 1
ok 1 3 14
ok
ok 1
ok 1
ok
ok 1
ok
ok
ok 1
ok
ok 1
ok 1
ok 1
ok 1 3 15
ok
ok 1
ok 1
ok
ok
no 6
ok
ok 1
ok
ok
ok
ok 1
ok 0
no 6
no 3
ok
ok
ok
ok
ok
ok
ok
ok
ok 1
ok
no 6
ok 1
ok
ok
ok
ok
ok 1
no 6
ok 1
ok 1
ok 1
no 6
ok
ok 1
ok
ok
ok 1
ok 1 3 16
ok
ok
no 6
ok 1
ok
ok
ok
ok 1
ok 1
no 1
ok 1
ok 1
ok 1
ok
ok
ok
no 6
ok
ok
ok
no 5
ok 1
ok
ok
ok 1
ok 1
ok
ok
no 5
ok 1
ok 1
no 1
ok
ok
ok
ok
ok
no 3
ok
ok
ok
ok
ok 1
ok
ok 1
ok
ok
ok
ok
ok
ok
ok
ok
ok
ok
ok
ok
ok 1
ok
ok
ok
ok 1
ok
ok
ok 1
ok
no 6
ok 1
ok 1
ok
ok
ok 1
ok 1
ok 1
ok
ok
ok 1
ok
ok
ok
ok 1
ok
ok
ok
ok
card 1 1.3.1 1.3.2 1.3.3 1.3.4 1.3.5
card 2 1.3.1 1.3.2 1.3.3 1.3.4 1.3.5 1.3.6 1.3.7 1.3.8 1.3.9
card 3 1.3.1 1.3.2 1.3.3 1.3.4 1.3.5 1.3.6 1.3.7 1.3.8 1.3.9 1.3.10
",
};
