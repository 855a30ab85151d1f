// Theorems only: what CHIP P17 and P18 say of the calls that tell why, over their definitions, stands in specs/.
