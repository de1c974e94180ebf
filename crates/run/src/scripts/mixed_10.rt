use crate::scripts::Stored;

pub(crate) const SCRIPT: Stored = Stored {
    rack: "",
    lines: "push 3 1 4
look 1 3 4
push 3 2 5
push 3 2 6
win 2
look 2 3 6
push 3 2 4
push 3 2 4
look 2 3 4
push 3 2 4
look 2 3 5
ship 3 1
look 1 3 4
push 3 1 4
push 1 2 4
win 2
push 2 1 6
look 2 3 4
push 1 3 6
look 1 2 6
push 1 3 5
push 3 2 5
push 1 2 4
look 3 1 5
look 3 1 6
look 1 3 4
push 3 1 6
look 2 3 4
push 3 2 5
push 3 1 5
push 1 3 5
push 2 3 6
look 2 1 5
look 3 1 5
push 1 2 4
push 2 1 5
push 2 3 5
push 2 3 4
look 1 2 5
push 1 2 6
look 3 2 5
push 3 1 6
push 1 2 5
look 3 2 4
push 3 1 5
elect 1
push 3 1 6
look 2 3 6
look 3 2 6
look 2 1 4
look 1 3 5
push 3 2 4
look 1 3 5
push 3 2 4
look 2 3 5
push 2 1 5
push 2 3 4
push 2 1 4
look 2 1 5
look 1 3 6
look 2 3 4
look 2 1 4
push 2 1 4
look 1 2 4
look 2 3 5
look 2 1 4
push 3 1 4
push 2 1 4
push 2 1 4
push 2 3 6
look 1 3 6
look 3 2 4
push 3 1 4
look 1 2 5
push 1 3 4
push 1 3 6
push 1 2 4
look 1 3 6
look 3 1 5
look 1 3 4
look 1 3 4
push 3 1 6
look 1 2 4
push 2 1 4
timeout 3
look 3 2 6
push 2 1 4
push 1 3 6
look 2 1 6
look 3 1 4
look 1 3 6
look 2 3 4
look 1 2 4
push 1 2 5
look 2 1 4
push 1 2 6
push 3 1 4
win 1
push 3 1 5
look 1 3 5
look 2 1 5
push 3 2 4
look 2 3 4
push 3 2 6
look 3 1 6
push 2 1 6
elect 3
push 2 3 4
push 2 3 6
look 3 1 6
commit 3
look 3 2 4
look 3 2 6
push 3 2 4
push 1 2 5
commit 3
elect 3
look 2 3 6
look 2 1 6
look 2 3 4
take 2 3
push 2 3 4
elect 1
push 1 3 5
push 1 2 4
push 3 1 6
push 3 1 5
push 2 1 4
look 2 1 5
look 1 3 6
push 2 3 6
push 3 1 6
look 2 1 4
look 3 2 4
push 3 2 5
look 3 1 5
take 2 1
elect 2
look 1 3 6
win 3
ship 3 1
look 1 3 4
push 1 2 6
push 1 3 5
push 1 2 5
push 1 2 4
ship 3 2
look 1 2 4
submit 3 2 1 986
look 2 3 6
look 2 3 5
submit 3 12 7 175
push 1 3 5
take 1 3
push 2 1 6
ship 3 2
push 2 1 5
elect 2
push 2 3 6
look 3 1 5
take 2 3
look 2 1 5
push 3 2 5
ship 3 1
look 1 2 4
push 3 1 4
look 1 3 4
look 3 2 6
ship 3 2
look 1 2 4
push 3 1 5
look 1 3 5
look 1 2 4
elect 1
take 2 3
look 1 2 5
submit 3 12 10 -795
push 2 1 5
look 1 3 5
look 3 1 5
commit 1
take 1 3
push 3 2 5
look 3 1 4
push 2 1 4
look 1 2 4
push 2 3 5
push 3 2 4
look 2 3 4
submit 3 11 9 -421
take 2 3
push 2 3 5
ship 3 2
push 3 2 5
look 2 1 4
submit 2 2 11 -726
look 3 2 6
push 2 1 5
push 2 1 4
ship 3 2
look 1 2 6
take 2 3
take 2 1
push 3 1 4
elect 1
ship 3 1
take 2 3
push 3 2 5
submit 3 8 15 -116
commit 2
ship 3 1
look 1 2 4
push 2 3 4
push 3 1 5
look 1 3 5
push 3 2 5
look 3 2 4
ship 3 2
look 1 2 5
commit 3
submit 3 4 9 -83
submit 3 2 10 -240
push 1 3 5
look 1 3 4
take 2 3
ship 3 2
push 2 3 5
commit 3
look 3 2 5
push 2 1 5
commit 3
take 2 3
push 1 2 4
push 2 3 5
look 2 1 6
submit 3 10 1 849
submit 3 13 23 3
look 2 3 5
ship 3 2
push 3 1 6
look 2 3 5
ship 1 2
push 2 3 5
look 2 1 4
ship 3 1
look 3 2 5
take 1 3
look 1 3 6
commit 3
look 1 2 5
push 3 2 5
elect 3
take 1 3
push 3 1 4
commit 1
look 1 2 5
push 1 2 6
submit 3 9 1 -239
ship 3 1
commit 3
take 2 3
commit 1
take 1 2
push 1 2 6
look 2 3 5
submit 3 8 4 -895
commit 1
submit 3 4 29 787
look 3 2 7
submit 3 12 31 50
submit 3 5 26 -662
submit 3 1 2 -989
look 1 3 4
ship 3 2
take 2 3
look 3 2 5
ship 2 1
submit 3 2 19 -252
push 3 2 4
take 1 3
look 2 3 4
look 2 1 6
push 2 1 5
look 3 2 5
push 1 3 5
push 3 1 4
take 1 3
look 1 2 5
ship 3 1
ship 3 2
push 2 3 5
push 2 3 4
push 3 1 4
push 2 1 5
look 3 2 4
look 2 1 7
commit 3
take 1 3
look 2 3 5
push 2 1 4
commit 3
take 2 3
look 1 2 5
look 1 3 4
push 3 2 6
take 2 1
look 1 2 4
push 1 3 6
commit 3
push 1 3 6
push 3 2 5
push 3 1 4
commit 3
submit 3 6 3 -742
look 2 3 6
look 1 2 6
ship 3 1
push 2 3 5
look 1 3 4
ship 1 2
push 3 2 5
push 3 1 5
take 1 3
commit 2
commit 2
look 2 3 5
look 3 1 5
commit 2
look 3 1 5
look 3 1 6
push 3 2 6
commit 2
elect 3
push 3 2 5
push 2 3 6
look 1 3 4
commit 4
push 2 1 5
ship 1 1
ship 3 1
push 2 3 4
commit 2
look 2 3 6
submit 3 3 11 -375
ship 3 1
commit 2
push 1 3 6
look 1 3 5
commit 4
look 3 2 5
push 2 3 5
commit 2
look 2 1 6
take 1 3
look 1 2 5
commit 2
push 3 2 6
take 3 2
push 3 2 6
push 1 3 5
take 2 1
ship 3 1
ship 1 3
push 1 2 4
commit 2
ship 3 2
push 2 3 4
elect 2
look 3 1 5
win 1
push 2 1 4
push 3 1 4
push 1 3 6
look 2 3 6
look 2 1 4
ship 3 1
ship 3 2
look 1 3 4
look 2 3 5
look 3 2 4
look 3 1 6
push 2 1 6
push 1 3 5
commit 3
look 2 3 6
take 1 3
look 3 2 6
push 1 3 5
push 3 1 4
ship 3 3
take 2 3
push 1 2 5
push 1 3 4
ship 3 2
ship 3 1
take 2 3
look 3 1 4
push 1 3 4
take 3 0
look 2 1 5
take 2 3
push 1 3 6
look 1 2 6
look 3 2 4
take 3 2
push 2 1 4
ship 3 1
take 1 3
timeout 1
look 3 1 6
push 3 2 6
ship 3 1
push 1 2 5
push 2 1 4
look 2 1 5
take 1 2
look 1 3 4
ship 1 3
look 3 1 6
push 2 3 6
ship 3 2
look 3 1 4
push 1 3 6
look 2 3 5
take 3 0
ship 3 2
push 3 2 6
push 3 2 4
push 3 1 6
look 3 2 5
push 3 2 6
push 3 1 4
ship 3 2
look 3 1 6
look 3 1 5
push 3 2 6
commit 3
look 1 3 6
push 3 1 6
push 3 1 4
ship 3 2
take 2 3
take 2 0
take 1 3
take 1 3
push 2 3 4
look 1 3 4
look 2 3 4
commit 1
take 1 3
look 2 3 6
look 3 1 5
commit 2
look 3 2 5
ship 3 1
take 2 3
look 1 3 4
take 1 3
push 1 2 5
look 3 2 6
take 2 3
look 3 2 4
take 1 3
look 3 2 6
look 2 1 5
ship 3 1
look 3 2 5
push 1 2 6
commit 3
look 2 3 6
take 1 3
take 2 3
commit 3
commit 3
look 2 3 6
look 2 1 6
push 2 1 5
push 2 3 5
elect 2
look 1 3 6
commit 3
push 2 3 6
look 3 2 6
push 2 3 4
look 1 3 5
take 3 2
ship 1 3
look 1 2 4
look 3 1 6
look 3 2 4
push 3 1 4
look 1 3 4
push 2 3 5
push 3 1 5
look 2 3 6
push 3 2 6
look 2 3 5
commit 3
push 2 1 6
push 3 2 5
",
    prints: "ok
ok
ok
ok
no 7
ok
ok
ok
ok
ok
ok
no 5
no 6
ok
ok
no 7
ok
ok
ok
ok
ok
ok
ok
ok
ok
ok
ok
ok
ok
ok
ok
ok
no 6
ok
ok
ok
ok
ok
ok
ok
ok
ok
ok
ok
ok
ok 0
ok
no 6
ok
ok
ok
ok
ok
ok
ok
ok
ok
ok
ok
ok
ok
ok
ok
ok
ok
ok
ok
ok
ok
ok
ok
ok
ok
ok
ok
ok
ok
ok
no 6
ok
ok
ok
ok
ok
ok 0 3
ok
ok
ok
ok
ok
ok
ok
ok
ok
ok
ok
ok
no 7
ok
ok
ok
ok
ok
ok
ok
ok
ok 0
ok
ok
ok
no 5
ok
ok
ok
ok
no 5
ok 0
ok
ok
ok
no 6
ok
ok 2
ok
ok
ok
ok
ok
ok
ok
ok
ok
ok
ok
ok
ok
no 6
ok 0
ok
ok 0 3
ok 1
ok
ok
ok
ok
ok
ok 1
ok
ok 0 3 1
no 6
ok
ok 0 3 2
ok
ok 2
ok
ok 1
ok
ok 2
ok
ok
ok 2
ok
ok
ok 1
ok
ok
ok
ok
ok 1
ok
ok
ok
ok
no 5
ok 1
ok
ok 0 3 3
ok
ok
ok
no 6
ok 1
ok
no 6
ok
ok
ok
ok
ok
ok 0 3 4
ok 1
ok
ok 1
ok
ok
no 5
ok
ok
ok
ok 1
ok
ok 1
no 6
ok
no 5
ok 1
ok 1
ok
ok 0 3 5
no 6
ok 1
ok
ok
ok
ok
ok
ok
ok 1
ok
ok 0
ok 0 3 6
ok 0 3 7
ok
ok
ok 1
ok 1
ok
ok 1
ok
ok
ok 1
ok 1
ok
ok
ok
ok 0 3 8
ok 0 3 9
ok
ok 1
ok
ok
no 5
ok
ok
ok 1
ok
ok 1
ok
ok 1
ok
ok
no 5
ok 1
ok
ok 0
ok
no 6
ok 0 3 10
ok 1
ok 1
ok 1
ok 1
no 6
ok
ok
ok 0 3 11
ok 1
ok 0 3 12
no 3
ok 0 3 13
ok 0 3 14
ok 0 3 15
ok
ok 1
ok 1
ok
no 5
ok 0 3 16
ok
ok 1
ok
ok
ok
ok
ok
ok
ok 1
ok
ok 1
ok 1
ok
ok
ok
ok
ok
no 3
ok 1
ok 1
ok
ok
ok 1
ok 1
ok
ok
ok
no 6
ok
ok
ok 1
ok
ok
ok
ok 1
no 10
ok
ok
ok 1
ok
ok
no 5
ok
ok
ok 1
ok 0
ok 1
ok
ok
ok 1
ok
ok
ok
ok 1
no 5
ok
ok
ok
no 1
ok
no 1
ok 1
ok
ok 1
ok
no 10
ok 1
ok 1
ok
ok
no 1
ok
ok
ok 1
no 6
ok 1
ok
ok 1
ok
no 6
ok
ok
no 6
ok 1
no 5
ok
ok 1
ok 1
ok
no 5
ok
no 5
ok
ok
ok
ok
ok
ok 1
ok 1
ok
ok
ok
ok
ok
ok
ok 1
ok
ok 1
ok
ok
ok
no 1
ok 1
ok
ok
ok 1
ok 1
ok 1
ok
ok
no 1
ok
ok 1
ok
ok
ok
no 6
ok
ok 1
ok 1
ok 1 1
ok
ok
ok 1
ok
ok
ok
no 6
ok
no 5
ok
ok
ok 1
ok
ok
ok
no 1
ok 1
ok
ok
ok
ok
ok
ok
ok 1
ok
ok
ok
no 6
ok
ok
ok
ok 1
ok 1
no 1
ok 0
ok 0
ok
ok
ok
no 5
ok 0
ok
ok
ok 1
ok
ok 1
ok 1
ok
ok 0
ok
ok
ok 1
ok
ok 0
no 6
ok
ok 1
ok
ok
ok 1
ok
ok 0
ok 1
ok 1
ok 1
ok
ok
ok
ok
no 5
ok
ok 1
ok
ok
ok
no 6
no 6
no 5
ok
ok
ok
ok
ok
ok
ok
ok
ok
ok
ok 1
ok
ok
card 1 0.3.1 0.3.2
card 2 0.3.1 0.3.2 0.3.3 0.3.4 0.3.5 0.3.6 0.3.7 0.3.8 0.3.9
card 3 0.3.1 0.3.2 0.3.3 0.3.4 0.3.5 0.3.6 0.3.7 0.3.8 0.3.9 0.3.10 0.3.11 0.3.12 0.3.13 0.3.14
",
};
