use crate::scripts::Stored;

pub(crate) const SCRIPT: Stored = Stored {
    rack: "",
    lines: "look 2 1 6
submit 2 1 24 985
push 1 2 5
push 2 3 4
look 3 2 4
win 3
ship 2 3
take 1 3
push 3 1 4
submit 3 4 13 -752
ship 3 1
look 1 3 4
push 2 1 6
push 3 2 6
push 3 1 5
look 2 1 5
look 1 2 6
push 3 2 6
take 1 0
look 3 1 6
look 2 3 5
push 3 1 4
look 1 3 4
push 1 3 6
push 1 3 4
push 1 3 4
look 3 1 6
push 3 2 6
push 3 1 4
push 2 1 4
push 3 2 3
push 3 1 4
push 2 1 4
push 2 1 5
look 2 3 6
look 1 2 5
commit 3
push 3 1 5
push 2 3 5
push 1 3 6
look 1 3 5
push 1 2 6
look 2 1 6
look 3 1 4
look 1 3 4
timeout 2
look 2 3 6
look 2 3 6
look 3 2 5
timeout 3
look 3 1 4
push 3 2 5
push 1 2 6
look 2 3 5
look 1 3 5
take 1 2
push 1 3 6
look 1 2 4
look 3 1 4
push 2 1 6
look 2 1 4
look 1 2 6
push 2 3 4
push 2 3 4
look 1 2 7
elect 2
look 3 1 6
push 3 2 6
look 3 1 6
push 2 3 5
look 1 3 4
push 1 3 6
look 2 3 6
push 3 1 6
look 3 1 6
push 2 1 5
look 1 3 6
push 3 1 5
look 2 1 6
push 2 1 5
look 1 2 5
push 1 2 6
submit 3 10 14 331
look 1 3 5
look 1 2 4
elect 1
elect 3
look 1 2 5
commit 4
push 3 2 4
look 2 1 6
look 3 2 5
push 1 3 5
push 2 3 5
push 1 2 6
submit 2 2 18 130
win 3
look 2 1 5
take 2 0
ship 1 2
ship 3 1
look 2 1 6
take 1 3
push 2 1 6
look 3 2 4
push 3 2 5
elect 1
ship 3 2
look 2 3 6
win 1
submit 3 9 26 177
submit 3 3 14 50
look 3 2 5
ship 3 1
submit 3 9 27 -899
push 3 2 5
push 2 1 5
push 1 2 5
look 2 3 4
look 2 3 6
look 1 2 6
push 2 3 6
look 2 3 5
push 3 1 4
take 2 3
look 2 1 5
look 1 2 5
ship 3 1
submit 1 2 3 760
ship 3 2
look 2 3 5
take 1 3
take 1 3
look 1 3 4
push 1 2 4
look 3 2 4
take 2 3
push 3 2 4
look 2 3 4
submit 3 10 16 -726
look 3 2 6
elect 3
commit 3
push 1 2 5
ship 3 1
take 1 3
look 3 1 5
push 3 2 5
look 2 1 4
ship 1 2
submit 3 2 15 262
take 3 1
look 3 2 5
ship 3 1
push 1 3 4
look 3 2 5
push 1 3 4
win 2
push 2 1 5
ship 3 2
push 2 3 4
ship 3 2
look 3 1 4
commit 3
push 2 3 4
push 3 1 4
commit 3
push 1 3 5
look 3 2 4
ship 3 3
push 2 3 4
push 3 1 6
take 1 3
push 3 2 4
commit 3
look 1 3 6
look 3 2 4
look 2 3 4
look 2 3 5
commit 1
commit 1
push 1 3 4
commit 3
ship 3 2
look 1 3 4
ship 2 1
ship 3 2
push 3 2 6
push 1 3 6
push 2 3 4
take 2 3
win 1
push 2 1 4
look 3 1 6
push 1 2 4
look 3 2 6
take 2 3
look 3 1 4
push 3 1 4
look 3 1 5
submit 3 13 7 156
ship 3 1
push 3 1 6
take 2 3
look 1 2 4
look 3 2 4
look 1 3 6
submit 2 10 19 404
look 1 3 4
timeout 1
take 1 3
commit 3
look 2 3 6
submit 3 10 22 -523
commit 2
submit 3 3 8 248
commit 2
commit 2
timeout 1
look 2 1 5
push 1 3 5
ship 3 2
push 2 1 4
push 2 1 5
commit 4
look 3 1 4
submit 3 1 29 -478
take 2 3
push 1 2 4
ship 3 2
push 1 2 4
look 3 2 5
commit 3
commit 3
push 3 1 6
take 2 3
commit 2
push 2 1 4
look 2 1 4
ship 3 1
look 1 2 7
push 2 3 5
take 1 3
submit 3 5 1 49
ship 3 2
submit 3 4 25 -138
look 3 2 4
look 3 2 5
push 2 3 5
push 2 1 5
look 1 3 6
push 1 3 6
take 2 3
ship 3 2
take 2 3
push 3 1 6
look 3 1 6
push 1 2 4
push 1 3 6
look 1 3 6
look 2 3 5
look 2 1 4
look 3 2 5
look 2 1 4
push 2 1 3
submit 3 12 27 30
look 1 2 5
push 3 2 6
look 2 1 4
push 2 1 6
ship 3 1
take 1 2
look 1 2 5
push 3 1 6
look 1 2 5
ship 3 1
push 2 1 4
ship 3 2
submit 3 14 24 789
take 1 3
look 3 1 4
push 3 2 6
submit 3 4 5 385
push 3 1 5
push 2 1 6
push 3 2 5
take 1 3
push 1 3 4
look 1 2 6
push 2 1 6
submit 3 1 22 -832
push 1 3 4
take 1 2
push 2 1 6
ship 3 1
ship 3 2
look 3 1 6
look 1 2 6
look 3 1 5
take 1 3
push 2 1 6
ship 3 2
commit 2
push 3 2 5
take 2 3
push 1 3 5
ship 3 2
look 3 1 4
look 3 1 4
push 1 2 4
look 2 3 5
submit 3 13 8 -658
ship 3 2
push 2 1 4
ship 3 1
take 1 3
look 1 2 6
look 1 3 6
ship 3 1
push 2 1 5
ship 3 1
push 1 2 6
push 3 1 5
push 1 3 4
look 3 1 4
push 2 1 5
look 1 2 4
take 2 3
look 3 1 5
push 3 1 4
look 1 3 4
ship 3 1
look 2 3 6
look 2 1 4
take 3 1
look 1 2 5
look 1 3 5
submit 1 1 26 -141
commit 2
look 1 2 5
ship 3 2
push 2 1 4
push 1 3 6
ship 3 1
push 1 2 6
push 1 2 5
push 2 3 4
take 1 3
take 2 3
take 2 3
push 1 2 6
push 3 2 6
look 1 2 6
push 3 1 6
look 3 2 4
look 2 3 5
look 1 3 6
look 2 1 6
take 2 3
take 1 3
push 3 1 6
push 2 1 5
commit 4
push 3 2 4
take 2 1
take 1 3
take 2 3
look 1 2 4
ship 3 1
ship 3 2
push 1 2 5
look 3 1 6
push 2 3 4
commit 3
look 1 3 6
ship 3 1
commit 3
look 2 1 6
commit 3
push 2 3 6
look 2 1 6
look 1 2 6
look 1 3 5
take 1 3
take 2 3
take 2 3
commit 3
look 2 3 6
look 2 3 4
take 1 3
push 2 3 5
look 2 1 5
take 1 3
push 2 1 5
push 1 3 4
look 3 2 6
commit 3
commit 3
look 2 3 6
push 2 3 5
push 1 2 6
look 1 2 4
look 2 1 5
ship 2 3
look 3 1 4
push 1 3 6
push 2 1 5
look 3 2 4
push 3 1 6
look 1 2 4
look 1 2 4
push 2 1 4
look 1 2 5
commit 3
commit 3
push 1 2 5
commit 3
look 3 1 6
commit 3
push 2 3 4
look 1 3 6
push 3 2 6
push 1 3 5
push 1 2 4
push 1 2 5
look 2 1 5
push 3 1 6
push 2 3 6
push 1 2 6
look 1 2 5
look 3 2 5
look 2 1 5
push 1 3 5
commit 2
push 1 3 4
look 3 1 5
look 2 3 6
elect 1
look 3 2 4
commit 3
look 3 1 4
commit 2
look 3 2 6
commit 3
look 2 1 4
look 3 2 5
look 3 2 4
stop 1
commit 2
push 3 1 5
push 2 3 5
look 3 2 5
look 1 3 6
push 3 1 6
push 2 1 4
take 2 1
commit 2
win 3
look 1 3 6
push 3 2 6
commit 2
look 2 1 6
push 2 1 4
ship 3 2
commit 2
take 3 2
commit 2
push 3 1 5
look 2 1 6
push 1 3 5
push 3 1 6
commit 3
ship 2 1
look 2 3 6
push 2 1 6
push 2 1 5
push 3 1 5
commit 2
look 3 1 5
commit 2
push 2 3 4
timeout 2
push 2 1 6
push 2 1 4
submit 2 6 11 432
look 1 2 5
push 2 1 6
push 3 1 4
push 2 1 6
look 1 3 4
look 1 3 5
submit 2 15 4 292
take 1 3
ship 2 2
push 3 1 5
push 3 2 5
look 2 3 5
push 2 1 5
push 2 1 6
push 3 2 6
",
    prints: "no 6
no 5
ok
ok
ok
no 7
no 5
no 6
ok
no 5
no 5
ok
ok
ok
ok
ok
ok
ok
no 1
no 6
no 6
ok
ok
ok
ok
ok
ok
ok
ok
ok
no 3
ok
ok
ok
ok
ok
no 5
ok
ok
ok
ok
ok
ok
ok
ok
ok 0 2
ok
ok
ok
ok 0 3
ok
ok
ok
ok
ok
no 6
ok
ok
no 6
ok
no 6
ok
ok
ok
no 3
ok 2
ok
ok
ok
ok
ok
ok
ok
ok
ok
ok
ok
ok
ok
ok
ok
ok
no 5
ok
ok
ok 2
ok 0
ok
no 1
ok
ok
ok
ok
ok
ok
no 5
ok 0 3
no 6
no 1
no 5
ok 1
ok
ok 2
ok
ok
ok
no 5
ok 1
no 6
no 5
ok 0 3 1
ok 0 3 2
ok
ok 1
ok 0 3 3
ok
ok
ok
ok
no 6
ok
ok
ok
ok
ok 2
ok
ok
ok 1
no 5
ok 1
ok
ok 1
ok 1
ok
ok
ok
ok 1
ok
ok
ok 0 3 4
ok
no 5
no 6
ok
ok 1
ok 1
ok
ok
ok
no 5
ok 0 3 5
no 6
no 6
ok 1
ok
no 6
ok
no 5
ok
ok 1
ok
ok 1
ok
ok 0
ok
ok
ok 1
ok
ok
no 1
ok
ok
ok 1
ok
ok 1
ok
ok
ok
ok
ok 0
ok 1
ok
ok 1
ok 1
ok
no 5
ok 1
ok
ok
ok
ok 1
no 5
ok
ok
ok
no 6
ok 1
ok
ok
ok
ok 0 3 6
ok 1
ok
ok 1
ok
ok
ok
no 5
ok
ok 1 1
ok 0
no 6
ok
ok 0 3 7
ok 0
ok 0 3 8
ok 1
ok 1
ok 2 1
ok
ok
ok 1
ok
ok
no 1
ok
ok 0 3 9
ok 1
ok
ok 1
ok
no 6
ok 1
no 6
ok
ok 1
ok 1
ok
ok
ok 1
no 3
ok
ok 0
ok 0 3 10
ok 1
ok 0 3 11
ok
ok
ok
ok
ok
ok
ok 1
ok 1
ok 1
ok
ok
ok
ok
ok
no 6
ok
ok
ok
no 3
ok 0 3 12
ok
ok
ok
ok
ok 1
no 6
ok
ok
ok
ok 1
ok
ok 1
ok 0 3 13
ok 0
no 6
ok
ok 0 3 14
ok
ok
ok
ok 0
ok
ok
ok
ok 0 3 15
ok
no 6
ok
ok 1
ok 1
ok
ok
ok
ok 0
ok
ok 1
no 6
ok
ok 1
ok
ok 1
ok
ok
ok
ok
ok 0 3 16
ok 1
ok
ok 1
ok 0
ok
ok
ok 1
ok
ok 1
ok
ok
ok
ok
ok
ok
ok 1
ok
ok
ok
ok 1
ok
ok
no 6
ok
ok
no 5
ok 1
ok
ok 1
ok
ok
ok 1
ok
ok
ok
ok 0
ok 1
ok 1
ok
ok
ok
ok
ok
ok
ok
ok
ok 1
ok 0
ok
ok
no 1
ok
no 6
ok 0
ok 1
ok
ok 1
ok 1
ok
ok
ok
ok 1
ok
ok 1
ok 1
ok
ok 1
ok
ok
ok
ok
ok 0
ok 1
ok 1
ok 1
ok
ok
ok 0
ok
ok
ok 0
ok
ok
ok
ok 1
ok 1
ok
ok
ok
ok
ok
no 5
ok
ok
ok
ok
ok
ok
ok
ok
ok
ok 1
ok 1
ok
ok 1
ok
ok 1
ok
ok
ok
ok
ok
ok
ok
ok
ok
ok
ok
ok
ok
ok
no 6
ok
ok
ok
ok 0
ok
ok 1
ok
ok 1
ok
ok 1
ok
ok
no 6
ok
ok 1
ok
ok
ok
no 4
ok
ok
no 6
ok 1
no 5
no 4
ok
ok 1
ok
ok
no 6
ok 1
no 6
ok 1
ok
ok
no 4
ok
no 6
no 5
ok
ok
ok
ok
ok 1
ok
ok 1
ok
ok 2 2
ok
ok
no 5
no 4
ok
ok
ok
no 4
no 4
no 5
no 4
no 1
ok
ok
ok
ok
ok
ok
card 1 0.3.1
card 2 0.3.1 0.3.2 0.3.3 0.3.4 0.3.5 0.3.6 0.3.7 0.3.8 0.3.9 0.3.10 0.3.11 0.3.12
card 3 0.3.1 0.3.2 0.3.3 0.3.4 0.3.5 0.3.6 0.3.7 0.3.8 0.3.9 0.3.10 0.3.11 0.3.12 0.3.13 0.3.14 0.3.15 0.3.16
",
};
