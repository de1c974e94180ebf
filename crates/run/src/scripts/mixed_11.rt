use crate::scripts::Stored;

pub(crate) const SCRIPT: Stored = Stored {
    rack: "",
    lines: "push 1 2 6
push 3 2 6
push 2 1 5
push 1 2 5
look 2 1 5
look 2 1 6
commit 3
ship 1 2
push 2 1 4
look 2 3 6
push 2 3 6
push 2 1 4
push 2 3 4
push 1 2 6
push 2 3 4
push 2 1 4
look 1 2 4
push 2 3 5
timeout 3
push 2 1 4
push 2 1 4
push 1 2 4
look 3 2 5
push 1 3 6
push 1 2 4
push 3 2 5
elect 3
look 1 2 4
look 3 2 4
push 3 1 5
push 3 1 4
look 2 1 6
push 3 1 4
look 2 1 4
look 1 3 4
push 3 2 4
ship 1 3
push 3 1 4
look 1 3 5
push 1 2 4
ship 3 3
look 2 3 5
look 3 2 5
take 1 3
push 3 2 6
commit 3
look 2 1 4
commit 4
look 1 2 5
push 2 3 5
look 3 1 6
look 1 3 4
look 1 3 4
look 3 1 5
win 3
look 2 3 4
commit 2
elect 1
commit 4
push 3 2 4
commit 4
look 3 2 4
look 2 1 4
look 1 2 4
elect 2
push 2 3 6
look 1 3 7
push 3 1 4
look 1 3 4
look 3 2 6
push 1 2 6
look 3 2 6
submit 2 5 31 774
look 1 2 4
look 2 1 4
push 1 2 6
elect 1
look 2 1 6
push 1 2 5
submit 1 15 10 691
look 3 2 5
look 2 3 4
look 2 3 4
push 2 3 6
push 1 3 6
look 2 3 6
look 3 2 6
push 3 2 4
look 1 2 4
look 2 3 4
look 2 3 4
look 2 1 6
push 1 3 6
push 2 1 6
push 3 1 6
push 2 3 4
push 1 2 5
look 1 2 6
take 3 2
push 1 2 4
push 3 2 6
push 3 2 5
push 3 2 4
push 1 2 6
look 2 3 6
look 2 3 4
push 1 2 5
push 2 3 4
push 2 3 5
push 2 3 4
look 3 1 6
push 2 3 6
push 2 1 5
look 3 2 5
push 2 3 4
win 3
submit 3 15 5 237
push 2 1 4
push 2 1 4
look 3 2 4
look 3 2 4
ship 3 3
elect 1
look 1 3 6
look 3 2 6
ship 3 1
push 2 3 4
ship 3 1
push 2 3 4
look 3 1 6
look 2 1 4
push 3 1 5
ship 3 3
look 1 3 5
look 1 2 4
push 3 1 4
commit 2
look 3 2 4
submit 3 10 21 -796
push 1 3 5
ship 2 3
push 2 3 6
look 1 3 4
look 3 1 5
push 3 1 5
look 3 2 6
look 3 2 5
look 2 1 6
look 1 2 4
look 2 1 5
push 3 1 5
look 3 2 4
push 1 2 4
look 1 2 5
look 2 3 5
look 2 1 5
look 3 2 4
push 2 3 4
look 3 1 7
push 2 3 5
take 1 3
submit 3 0 4 -707
push 3 2 4
look 1 3 5
push 3 1 4
look 3 2 4
push 3 1 5
look 3 2 5
ship 3 2
look 2 1 4
look 1 3 4
push 1 2 5
win 3
ship 3 2
ship 3 1
take 2 3
look 2 3 4
look 2 1 5
look 3 2 4
push 2 1 5
push 2 1 4
ship 3 2
look 1 3 5
take 1 3
ship 3 1
push 3 1 4
take 1 3
look 2 1 5
look 1 3 5
submit 3 12 5 -597
ship 3 2
push 1 2 5
submit 3 4 4 566
look 1 2 6
push 3 1 4
take 2 3
ship 3 1
ship 3 1
ship 3 2
take 1 3
take 1 3
look 1 2 5
submit 3 2 23 -852
commit 2
take 1 3
ship 3 1
push 2 3 4
look 2 1 5
ship 3 2
take 1 3
submit 3 7 27 561
look 3 1 6
take 2 3
look 1 2 4
push 3 1 5
look 1 2 7
push 1 2 3
ship 3 1
push 2 1 4
submit 3 3 3 -8
take 2 3
look 1 3 5
look 1 2 4
take 1 3
win 1
push 1 3 5
push 2 1 5
submit 3 3 8 -444
submit 3 0 18 195
ship 3 1
push 2 3 5
submit 3 7 19 -925
look 1 2 5
take 1 3
ship 3 2
push 3 2 5
look 3 2 5
push 2 1 5
win 3
look 1 2 4
ship 3 1
take 2 3
look 3 1 5
ship 3 1
take 1 3
push 2 3 4
push 2 1 4
submit 3 14 16 -134
look 1 2 5
submit 3 15 3 758
ship 3 2
take 2 3
look 2 3 4
look 2 1 4
look 2 3 5
take 2 3
push 1 2 4
look 1 2 4
take 2 3
look 2 3 5
take 1 3
submit 3 6 23 -2
ship 3 2
submit 3 3 10 717
push 1 3 6
look 1 3 4
submit 3 8 21 964
push 1 3 5
push 3 1 5
ship 3 1
commit 3
look 3 1 5
push 3 1 4
push 3 1 5
push 2 3 4
take 2 3
look 3 2 4
look 1 3 5
ship 3 2
ship 3 2
ship 3 2
timeout 1
ship 3 1
commit 3
commit 3
push 2 3 5
ship 3 1
ship 3 1
push 1 3 5
look 1 3 5
push 1 3 4
push 2 3 5
push 3 2 4
ship 3 1
take 1 3
ship 3 1
take 1 3
ship 3 2
ship 3 2
push 2 1 4
look 3 2 5
win 1
take 1 3
look 3 2 4
ship 2 3
take 3 0
push 3 2 6
look 2 3 6
push 2 1 5
push 3 2 4
commit 3
commit 2
commit 2
ship 3 2
look 1 2 4
push 3 1 5
ship 3 2
push 1 3 5
look 2 1 4
commit 3
commit 4
look 3 2 5
take 1 3
look 1 2 5
commit 3
look 1 3 4
push 3 2 5
push 1 3 5
take 2 3
submit 3 6 9 -812
look 3 1 4
look 1 2 5
push 3 2 5
push 1 2 4
look 2 3 4
push 1 3 5
push 2 1 4
take 2 1
ship 2 2
ship 3 2
take 2 3
look 2 3 4
push 3 1 6
elect 1
commit 3
push 1 2 5
take 1 0
push 3 1 6
look 3 1 5
commit 3
push 2 1 5
look 3 2 4
look 1 2 4
commit 3
look 3 2 6
take 2 3
commit 3
look 2 1 5
push 2 1 5
commit 3
win 3
elect 2
look 3 1 5
commit 3
push 2 1 5
look 1 3 6
look 1 3 5
ship 2 2
push 3 2 5
take 2 3
look 3 1 5
take 2 3
push 1 3 4
commit 3
submit 3 0 30 -458
take 1 3
push 1 2 5
take 2 3
take 1 3
look 2 1 5
push 1 3 4
push 3 2 6
push 1 3 4
push 3 1 6
look 1 2 5
look 3 2 5
look 2 1 4
look 2 3 5
push 2 3 6
take 2 3
take 2 3
submit 0 99 21 -619
push 2 3 5
look 3 2 6
look 2 3 5
look 1 3 4
look 2 3 6
commit 2
push 3 1 5
look 3 1 5
look 1 3 5
look 3 1 4
commit 2
push 2 1 4
commit 2
look 3 1 4
push 2 1 4
take 3 2
win 2
look 1 2 4
elect 1
push 2 3 6
commit 2
push 1 2 4
push 2 1 6
push 3 2 5
look 1 2 6
ship 3 3
elect 1
commit 2
push 3 1 5
take 2 1
push 2 1 5
commit 1
push 2 3 6
commit 2
look 2 1 4
commit 2
commit 2
push 3 1 4
commit 2
look 1 3 5
look 1 2 5
look 1 2 4
look 1 2 5
ship 2 3
look 1 3 4
push 2 3 5
push 1 3 5
look 1 3 6
look 3 1 4
push 1 3 5
look 3 1 5
push 2 1 4
look 1 2 5
push 3 1 6
look 3 2 6
push 2 3 4
push 2 3 3
push 1 3 5
push 2 3 5
push 3 1 5
push 2 1 6
look 1 3 5
look 3 1 5
look 3 1 5
look 1 3 6
commit 1
push 3 1 5
commit 3
look 3 2 5
push 2 3 6
look 2 3 5
look 1 3 4
push 3 2 5
look 2 3 5
push 3 1 5
push 1 3 5
look 3 1 5
look 2 3 5
look 3 2 4
look 2 3 4
ship 1 1
take 3 0
commit 3
look 1 3 6
commit 3
look 3 2 5
push 1 3 5
push 2 1 4
take 3 1
push 2 1 4
look 1 3 5
win 1
push 1 2 4
push 3 2 4
commit 3
commit 3
push 3 1 4
look 3 1 5
look 2 3 4
look 1 3 5
look 1 2 6
look 3 2 6
push 1 3 3
look 3 2 5
look 1 2 4
look 1 3 5
push 2 3 5
commit 1
",
    prints: "ok
ok
ok
ok
ok
ok
no 5
no 5
ok
ok
ok
ok
ok
ok
ok
ok
ok
ok
ok 0 3
ok
ok
ok
ok
ok
ok
ok
ok 0
ok
ok
ok
ok
ok
ok
ok
ok
ok
no 5
ok
ok
ok
no 1
ok
no 6
no 6
ok
no 5
ok
no 1
ok
ok
ok
ok
ok
no 6
no 7
ok
no 5
ok 2
no 1
ok
no 1
ok
ok
ok
ok 2
ok
no 3
ok
ok
ok
ok
ok
no 5
ok
no 6
ok
ok 0
ok
ok
no 5
ok
ok
no 6
ok
ok
ok
ok
ok
ok
ok
no 6
ok
ok
ok
ok
ok
ok
ok
no 6
ok
ok
ok
ok
ok
ok
ok
ok
ok
ok
ok
ok
ok
ok
ok
ok
ok 0 3
ok 0 3 1
ok
ok
ok
ok
no 1
ok 0
ok
ok
ok 1
ok
ok 1
ok
ok
ok
ok
no 1
ok
ok
ok
no 5
ok
ok 0 3 2
ok
no 5
ok
ok
ok
ok
ok
no 6
ok
ok
ok
ok
ok
ok
ok
ok
ok
ok
ok
no 3
ok
ok 2
ok 0 3 3
ok
ok
ok
ok
ok
ok
ok 1
ok
ok
ok
no 5
ok 1
ok 1
ok 2
ok
ok
ok
ok
ok
ok 1
ok
ok 1
ok 1
ok
ok 1
ok
ok
ok 0 3 4
ok 1
ok
ok 0 3 5
no 6
ok
ok 1
ok 1
ok 1
ok 1
ok 1
ok 1
ok
ok 0 3 6
no 6
ok 1
ok 1
ok
ok
ok 1
ok 1
ok 0 3 7
no 6
ok 1
ok
ok
no 3
no 3
ok 1
ok
ok 0 3 8
ok 1
ok
ok
ok 1
no 5
ok
ok
ok 0 3 9
ok 0 3 10
ok 1
ok
ok 0 3 11
ok
ok 1
ok 1
ok
ok
ok
no 5
no 6
ok 1
ok 1
ok
ok 1
ok 1
ok
ok
ok 0 3 12
ok
ok 0 3 13
ok 1
ok 1
no 6
no 6
ok
ok 1
ok
ok
ok 1
no 6
ok 1
ok 0 3 14
ok 1
ok 0 3 15
no 6
ok
ok 0 3 16
ok
ok
ok 1
no 6
ok
ok
ok
ok
ok 1
ok
ok
ok 1
ok 1
ok 1
ok 1 1
ok 1
ok 0
ok 1
ok
ok 1
ok 1
ok
ok
ok
ok
ok
ok 1
ok 0
ok 1
ok 0
ok 1
ok 1
ok
ok
no 7
ok 0
ok
no 5
no 1
ok
ok
ok
ok
ok 1
ok 0
ok 1
ok 1
ok
ok
ok 1
ok
ok
ok 1
no 1
ok
ok 0
ok
ok 1
ok
ok
ok
ok 1
no 10
ok
no 6
ok
ok
ok
ok
ok
no 6
no 1
ok 1
ok 1
ok
ok
ok 0
ok 1
ok
no 1
ok
ok
ok 1
ok
ok
ok
ok 1
no 6
ok 1
ok 1
ok
ok
ok 1
no 5
no 5
ok
ok 1
ok
ok
ok
no 1
ok
ok 1
ok
ok 1
ok
no 6
no 10
ok 0
ok
ok 1
ok 0
ok
ok
ok
ok
ok
ok
no 6
ok
ok
ok
ok 1
ok 1
no 1
ok
ok
ok
ok
ok
ok 1
ok
ok
ok
ok
ok 1
ok
ok 1
ok
ok
no 6
no 5
ok
ok 0
ok
ok 1
ok
ok
ok
ok
no 1
ok 0
ok 1
ok
no 6
ok
no 5
ok
ok 1
ok
ok 1
ok 1
ok
ok 1
ok
ok
ok
ok
no 5
ok
ok
ok
ok
ok
ok
ok
ok
ok
ok
ok
ok
no 3
ok
ok
ok
ok
ok
ok
ok
ok
no 5
ok
no 6
ok
ok
ok
no 6
ok
ok
ok
ok
ok
ok
ok
no 6
no 1
no 1
ok 1
ok
ok 1
ok
ok
ok
no 6
ok
ok
no 7
ok
ok
ok 1
ok 1
ok
ok
ok
ok
ok
ok
no 3
ok
ok
no 6
ok
no 5
card 1
card 2 0.3.1 0.3.2 0.3.3 0.3.4 0.3.5 0.3.6 0.3.7 0.3.8 0.3.9 0.3.10
card 3 0.3.1 0.3.2 0.3.3 0.3.4 0.3.5 0.3.6 0.3.7 0.3.8 0.3.9 0.3.10 0.3.11 0.3.12 0.3.13 0.3.14
",
};
