use crate::scripts::Stored;

pub(crate) const SCRIPT: Stored = Stored {
    rack: "",
    lines: "push 2 1 5
push 2 3 6
look 2 3 4
push 1 2 5
commit 3
push 2 3 6
look 1 2 5
timeout 1
look 2 3 7
push 1 2 5
look 2 1 5
push 1 3 6
look 2 1 5
timeout 1
push 1 2 5
elect 2
push 3 1 6
push 2 1 6
commit 1
look 3 1 6
look 2 1 5
look 2 1 4
elect 2
look 3 2 6
push 3 2 6
push 2 3 5
ship 1 3
submit 3 11 16 312
win 2
push 1 2 4
push 2 3 5
take 2 1
push 3 1 4
look 2 1 4
look 1 2 6
push 3 1 5
push 3 1 5
look 3 2 7
look 2 3 6
commit 3
commit 2
ship 2 3
push 3 1 5
look 1 3 6
push 1 2 4
push 3 1 5
push 3 1 6
push 3 1 5
push 2 3 5
push 2 3 4
commit 1
look 3 2 5
look 1 3 5
push 2 3 4
look 3 2 6
ship 2 1
take 2 3
commit 3
submit 1 11 18 533
look 2 1 4
look 3 2 4
look 1 3 5
push 1 3 5
push 2 1 5
look 1 2 5
push 1 2 5
elect 3
push 3 1 6
push 3 2 4
push 2 1 4
look 1 2 4
push 1 2 5
push 1 2 4
win 1
push 3 2 6
push 1 3 5
push 2 1 6
push 2 1 6
push 1 3 4
look 3 2 5
look 1 3 5
submit 1 5 15 346
push 3 1 4
look 3 2 4
push 2 1 4
take 2 1
push 3 2 6
look 1 3 5
look 3 1 5
submit 1 8 26 -33
push 3 2 6
ship 3 2
look 2 1 4
look 1 3 6
push 2 3 4
look 3 2 5
push 2 1 6
look 1 3 4
look 3 2 4
look 2 3 4
ship 3 1
push 3 2 6
push 1 2 5
ship 1 2
push 2 3 5
look 1 3 6
look 2 3 6
push 2 3 5
take 2 0
look 1 2 6
look 1 2 4
push 3 1 6
look 1 3 5
look 2 3 6
push 1 3 4
look 1 3 6
look 3 2 5
submit 1 14 10 920
take 2 1
push 1 3 4
look 3 1 4
submit 3 12 23 -754
ship 1 3
take 3 1
look 1 2 6
elect 3
ship 2 3
submit 1 8 19 -142
ship 1 3
look 2 3 6
look 3 1 4
ship 1 3
push 2 3 4
look 3 1 4
look 3 1 5
ship 1 3
look 3 2 5
push 1 2 5
ship 1 2
push 3 2 5
ship 1 3
take 3 1
take 3 0
look 2 3 6
timeout 3
take 3 1
take 2 1
take 3 1
look 2 3 4
push 2 3 4
submit 1 9 24 -879
look 1 3 4
ship 1 3
look 2 3 5
take 3 1
ship 1 2
look 1 2 4
take 3 1
push 3 2 4
look 3 2 4
look 2 3 4
push 1 2 5
submit 1 8 3 -381
push 3 1 5
look 1 2 6
ship 1 2
ship 1 3
look 3 2 4
look 1 3 5
timeout 1
take 3 1
commit 1
take 2 1
take 1 3
push 1 2 5
push 3 2 4
take 2 1
push 3 2 5
push 1 3 4
look 2 3 4
look 3 1 4
win 3
look 1 2 4
ship 1 2
push 1 3 5
push 2 1 5
push 3 2 4
commit 2
take 2 1
look 3 1 5
push 3 2 5
look 2 3 5
push 2 3 4
submit 3 9 10 935
push 3 2 5
push 2 3 5
push 2 3 5
look 2 3 4
submit 2 4 26 759
look 3 2 5
push 3 2 5
look 2 1 5
look 3 2 5
take 2 1
push 2 3 4
look 3 1 6
push 1 2 4
look 3 2 4
take 2 1
push 2 3 5
look 1 2 5
push 3 2 4
elect 3
look 1 2 5
ship 1 3
look 2 3 5
look 3 2 5
win 1
push 1 2 4
submit 2 8 15 -320
push 1 2 4
look 2 1 4
push 3 1 5
look 2 1 5
look 2 3 5
look 3 2 4
push 3 2 5
look 1 3 5
look 2 3 4
take 1 3
push 3 1 3
push 2 1 4
look 2 1 5
push 1 3 4
look 3 1 6
push 1 2 5
push 1 2 5
look 3 2 6
push 3 1 5
push 1 3 5
commit 2
look 3 1 4
push 2 3 4
ship 3 2
look 3 1 5
commit 3
push 1 3 4
push 1 3 5
look 2 1 5
look 1 3 6
look 1 2 4
look 3 1 4
look 2 3 5
take 1 3
push 2 1 5
look 2 3 5
look 3 1 5
push 2 3 4
take 2 1
ship 1 1
look 2 1 4
look 2 1 4
look 2 1 5
win 1
take 2 3
look 3 2 4
ship 1 2
push 2 1 4
push 1 2 4
win 1
timeout 3
look 2 3 7
ship 1 3
take 2 1
push 3 1 4
take 3 1
look 3 2 4
commit 3
push 2 3 4
look 2 1 5
look 2 1 4
push 1 3 4
look 3 1 4
look 1 2 5
look 1 3 4
push 2 3 4
push 1 2 4
look 3 2 4
submit 1 4 3 71
push 1 3 4
ship 1 2
look 2 1 4
push 2 3 5
commit 1
push 2 3 5
look 1 2 4
take 2 1
take 3 1
push 3 1 5
look 3 2 4
push 2 1 5
ship 1 3
push 3 2 4
look 1 2 5
look 2 1 5
push 3 2 5
look 3 1 4
submit 1 12 25 -160
submit 1 14 9 -125
look 2 3 5
submit 1 0 29 982
ship 1 3
push 1 2 4
submit 1 4 15 -441
look 2 3 4
ship 1 2
push 2 1 3
push 2 1 4
push 2 3 4
look 2 1 5
ship 1 2
look 1 3 5
look 1 2 4
take 3 1
ship 1 3
take 1 3
ship 1 2
take 2 1
push 3 2 5
ship 1 2
commit 3
commit 3
push 2 3 5
take 2 1
commit 1
push 1 3 5
look 3 1 5
look 2 1 4
submit 1 0 26 778
look 1 3 5
look 3 2 5
take 3 1
push 3 1 4
look 2 3 5
look 1 3 4
push 2 1 5
ship 2 1
submit 2 8 12 600
commit 1
push 2 1 5
ship 1 2
push 3 1 4
take 2 1
look 1 3 4
take 3 1
push 3 2 4
elect 1
take 2 1
look 2 3 4
submit 1 4 13 987
submit 1 12 19 479
look 1 2 5
ship 1 2
look 3 2 4
push 2 3 4
take 2 1
ship 2 1
push 1 2 5
push 3 2 5
push 3 1 5
push 1 2 4
push 3 1 5
submit 1 13 13 480
ship 1 3
ship 1 2
elect 1
look 2 1 5
commit 1
look 2 1 4
take 3 1
look 1 2 5
take 2 1
submit 2 13 0 118
submit 1 3 11 758
look 2 3 5
push 2 3 4
ship 1 3
push 2 1 4
push 3 2 5
look 1 3 6
take 2 1
push 3 2 4
ship 1 2
take 2 1
push 1 3 5
push 2 1 5
look 3 2 5
look 2 3 5
look 1 2 4
look 3 2 5
look 2 3 4
commit 1
commit 1
look 1 3 5
push 2 3 5
take 3 1
look 3 1 5
commit 1
commit 1
look 1 2 5
ship 1 2
ship 1 3
ship 1 3
take 3 1
look 3 1 6
ship 1 3
commit 1
look 1 3 5
ship 3 2
push 3 1 5
commit 1
look 1 3 5
push 2 3 4
take 2 1
push 1 3 4
ship 1 3
ship 1 3
ship 1 2
push 1 2 4
win 1
push 1 2 4
push 1 2 4
push 1 3 5
look 3 1 4
push 1 3 5
look 3 1 5
push 1 2 4
elect 2
look 3 1 4
elect 3
look 3 1 5
push 2 3 4
take 3 1
push 3 1 5
push 1 3 4
push 3 2 4
push 1 2 6
look 2 1 6
look 3 2 4
commit 3
look 2 1 4
take 3 1
look 3 2 5
commit 2
look 3 2 4
look 2 3 4
commit 2
commit 2
take 3 1
push 1 2 4
push 1 3 4
timeout 1
look 3 2 4
look 3 1 4
take 3 1
look 3 2 4
commit 2
push 3 1 4
push 3 2 5
look 1 3 4
commit 2
push 2 3 6
look 1 3 5
push 3 2 4
push 1 2 5
push 1 3 6
commit 2
push 2 1 5
commit 2
commit 3
ship 1 3
look 1 2 5
look 2 3 4
commit 2
push 1 2 5
elect 2
look 3 2 5
look 2 1 4
look 3 1 4
look 2 3 5
ship 3 1
push 3 2 4
look 2 1 5
look 3 1 6
push 1 3 4
push 2 1 6
look 2 3 4
push 3 2 4
push 2 1 6
push 1 3 4
",
    prints: "ok
ok
no 6
ok
no 5
ok
ok
ok 0 1
no 3
ok
ok
ok
ok
ok 1 1
ok
ok 2
ok
ok
no 5
ok
ok
no 6
ok 2
ok
ok
ok
no 5
no 5
no 7
ok
ok
no 6
ok
ok
ok
ok
ok
no 3
ok
no 5
no 5
no 5
ok
ok
ok
ok
ok
ok
ok
ok
no 5
ok
ok
ok
ok
no 5
no 6
no 5
no 5
ok
ok
ok
ok
ok
ok
ok
ok 2
ok
ok
ok
ok
ok
ok
ok 1 1
ok
ok
ok
ok
ok
ok
ok
ok 1 1 1
ok
ok
ok
no 6
ok
ok
ok
ok 1 1 2
ok
no 5
ok
ok
ok
ok
ok
ok
ok
ok
no 5
ok
ok
ok 1
ok
ok
ok
ok
no 1
ok
ok
ok
ok
ok
ok
ok
ok
ok 1 1 3
ok 2
ok
ok
no 5
ok 1
ok 2
ok
no 5
no 5
ok 1 1 4
ok 1
ok
ok
ok 1
ok
ok
ok
ok 1
ok
ok
ok 1
ok
ok 1
ok 1
no 1
ok
ok 1 3
ok 0
ok 1
ok 0
no 6
ok
ok 1 1 5
ok
ok 1
ok
ok 0
ok 1
no 6
ok 0
ok
ok
ok
ok
ok 1 1 6
ok
ok
ok 1
ok 1
ok
ok
ok 2 1
ok 0
no 5
ok 1
no 6
ok
ok
ok 1
ok
ok
ok
ok
no 7
no 6
no 5
ok
ok
ok
no 6
no 6
ok
ok
ok
ok
no 5
ok
ok
ok
ok
no 5
ok
ok
ok
ok
no 6
ok
no 6
ok
ok
no 6
ok
ok
ok
ok 2
no 6
no 5
ok
ok
no 7
ok
no 5
ok
ok
ok
ok
ok
ok
ok
ok
ok
no 6
no 3
ok
ok
ok
no 6
ok
ok
no 6
ok
ok
no 6
ok
ok
no 5
ok
no 5
ok
ok
ok
no 6
ok
ok
ok
no 6
ok
ok
ok
ok
no 6
no 1
ok
ok
ok
ok 2 1
no 6
ok
ok 7
ok
ok
no 5
ok 2 3
no 3
ok 7
ok 2
ok
ok 0
ok
no 5
ok
ok
ok
ok
ok
ok
ok
ok
ok
ok
ok 2 1 1
ok
ok 1
ok
ok
no 6
ok
ok
ok 1
no 6
ok
ok
ok
ok 1
ok
ok
ok
ok
ok
ok 2 1 2
ok 2 1 3
ok
ok 2 1 4
ok 1
ok
ok 2 1 5
ok
ok 1
no 3
ok
ok
ok
ok 1
ok
ok
ok 0
ok 1
no 6
ok 1
ok 1
ok
ok 1
no 5
no 5
ok
ok 1
ok 6
ok
ok
ok
ok 2 1 6
ok
ok
ok 0
ok
ok
ok
ok
no 5
no 5
ok 1
ok
ok 1
ok
ok 1
ok
ok 0
ok
no 5
ok 1
ok
ok 2 1 7
ok 2 1 8
ok
ok 1
ok
ok
ok 1
no 5
ok
ok
ok
ok
ok
ok 2 1 9
ok 1
ok 1
no 5
ok
no 6
ok
ok 0
ok
ok 1
no 5
ok 2 1 10
ok
ok
ok 1
ok
ok
no 6
ok 1
ok
ok 1
ok 1
ok
ok
ok
ok
ok
ok
ok
ok 1
ok 1
ok
ok
ok 0
ok
ok 1
ok 1
ok
ok 1
ok 1
ok 1
ok 0
no 6
ok 1
ok 1
ok
no 5
ok
ok 1
ok
ok
ok 1
ok
ok 1
ok 1
no 6
ok
no 5
ok
ok
ok
ok
ok
ok
ok
no 5
no 6
ok 0
ok
ok
ok 0
ok
ok
ok
ok
ok
ok
no 5
ok
ok 0
ok
ok 6
ok
ok
ok 1
ok 1
ok 0
ok
ok
ok 3 1
ok
ok
ok 0
ok
ok 1
ok
ok
ok
ok 1
ok
ok
ok
ok
ok
ok 1
ok
ok 1
no 5
no 5
ok
ok
ok 1
ok
no 5
no 6
ok
ok
ok
no 5
ok
ok
ok
ok
ok
ok
ok
ok
ok
card 1 1.1.1 1.1.2 1.1.3 1.1.4 1.1.5 1.1.6 2.1.1 2.1.2 2.1.3 2.1.4 2.1.5 2.1.6 2.1.7
card 2 1.1.1 1.1.2 1.1.3 1.1.4 1.1.5 1.1.6 2.1.1 2.1.2 2.1.3 2.1.4 2.1.5 2.1.6 2.1.7
card 3
",
};
